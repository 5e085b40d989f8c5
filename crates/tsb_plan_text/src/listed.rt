//! What a plan text gives for one object.
ghost use Rattle.std.specs.Prelude.{◌≡◌, ◌≤◌, true, Some, IfSome, option_map};
ghost use Rattle.serde_json.specs.View.{view, members_view};
ghost use Rattle.tsb_plan.specs.Names.{object_named};
ghost use Rattle.tsb_plan.specs.Plan.{with_value};
ghost use Rattle.tsb_plan.specs.PlanOf.{plan_of};
ghost use Rattle.tsb_plan.specs.Versions.{range_in, indices_in, greatest_in, has_index_in, translated};
ghost use Rattle.tsb_plan_text.specs.PlanErrors.{MakesOf};
ghost use Rattle.tsb_plan_text.specs.PlanText.{index_named, with_entry, with_table};

use crate::error::PlanError;
use crate::numbers::{read_index, read_number};
use serde_json::{Map, Value};
use std::alloc::Global;
use tsb_objects::{Object, ObjectId, Plan, Range, Version};
use tsb_plan::version_laws::versions_say_the_same;

/// An object as the texts of a version have it.
#[derive(Clone, Copy)]
pub(crate) struct Listed {
    version: Version,
    object: Object,
    range: Range,
    ghost ranged: { range_in version object ≡ Some range },
}

impl Listed {
    /// The object of this name in the version.
    pub(crate) fn named(version: Version, name: &str) -> Option<Listed>
        ensures object { option_map (λ listed. listed.object) result ≡ object_named version name.now }
        ensures version { option_map (λ listed. listed.version) result ≡ option_map (λ _. version) result }
    {
        let object = Object::named(version, name)?;
        let range = object.range_in(version)?;
        Some(Listed {
            version,
            object,
            range,
        })
    }

    /// Which object it is.
    pub(crate) fn object(self) -> Object
        ensures { result ≡ self.object }
    {
        self.object
    }

    /// Puts each value of the table into the plan.
    pub(crate) fn read_table(
        self,
        alloc: Global,
        table: &Map<String, Value>,
        plan: &mut Plan,
    ) -> Result<(), PlanError>
        ensures { MakesOf result (plan_of plan.new)
            (with_table self.version self.object (members_view table.now.entries) (plan_of plan.old)) }
    {
        for (index, value) in table.iter() {
            self.read_entry(alloc, index.as_str(), value, plan)?;
        }
        Ok(())
    }

    /// Puts the value at the index into the plan.
    #[tactic(auto, using(crate::proofs::TableLemmas::range_is), unfolding(crate::specs::PlanText::with_entry))]
    fn read_entry(
        self,
        alloc: Global,
        text: &str,
        value: &Value,
        plan: &mut Plan,
    ) -> Result<(), PlanError>
        ensures { MakesOf result (plan_of plan.new)
            (with_entry self.version self.object text.now (view value.now) (plan_of plan.old)) }
    {
        let object = self.object;
        let Some(index) = self.index(text) else {
            let index = String::from_str(alloc, text)?;
            return Err(PlanError::NoSuchIndex { object, index });
        };
        let Some(number) = read_number(value) else {
            let index = String::from_str(alloc, text)?;
            return Err(PlanError::NotAWholeNumber { object, index });
        };
        if number > self.range.greatest {
            let index = String::from_str(alloc, text)?;
            return Err(PlanError::OutOfRange { object, index });
        }
        self.put(index, number, plan);
        Ok(())
    }

    /// The index that this text spells.
    fn index(self, text: &str) -> Option<u32>
        ensures within { IfSome result (λ i. has_index_in self.version self.object i ≡ true) }
        ensures named { result ≡ index_named (indices_in self.version self.object) text.now }
    {
        let last = self.range.indices;
        let index = read_index(text)?;
        if index <= last { Some(index) } else { None }
    }

    /// Puts a value that the version has into the plan.
    fn put(self, index: u32, value: u32, plan: &mut Plan)
        requires index { has_index_in self.version self.object index ≡ true }
        requires value { value ≤ greatest_in self.version self.object }
        ensures { plan_of plan.new
            ≡ with_value (plan_of plan.old) self.object (translated self.version self.object index) value }
    {
        versions_say_the_same();
        let id = ObjectId {
            object: self.object,
            index: self.version.translated(self.object, index),
        };
        plan.put(id, value).unwrap();
    }
}
