//! The names of objects.
ghost use Rattle.std.specs.Prelude.{◌≡◌, ◌↔◌, Some, None};
ghost use Rattle.tsb_plan.specs.declared.object.Object.{Object};
ghost use Rattle.tsb_plan.specs.Names.{name_of, object_named, IsNamed};

use crate::object::{NAMES, Object};
use crate::version::Version;
use std::fmt;

/// An object is shown by its name.
impl fmt::Debug for Object {
    ghost debug_output = { λ object. Some (name_of object) };

    fn fmt<W: fmt::Write>(&self, f: &mut fmt::Formatter<W>) -> fmt::Result {
        f.write_str(self.name())
    }
}

impl Object {
    /// The object's name, as NTCIP 1202 and plan texts have it.
    pub fn name(self) -> &'static str
        ensures { result.now ≡ name_of self }
    {
        NAMES[self as usize]
    }

    /// The object that has this name in plan texts of the version, or `None` where no object of the
    /// version has it. Small and capital letters differ.
    pub fn named(version: Version, name: &str) -> Option<Object>
        ensures same { result ≡ object_named version name.now }
        ensures exact { (o : Object) → (result ≡ Some o) ↔ IsNamed version o name.now }
        ensures none { result ≡ None → (o : Object) → ¬ IsNamed version o name.now }
    {
        first_named(version, name)
    }
}

#[tactic(auto, unfolding(crate::specs::Names::object_named, crate::specs::Objects::objects))]
fn first_named(version: Version, name: &str) -> Option<Object>
    ensures { result ≡ object_named version name.now }
{
    Object::ALL
        .iter()
        .copied()
        .find(|object| version.has(*object) && object.name() == name)
}
