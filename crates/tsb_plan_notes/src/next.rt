//! What a text of JSON may go on with.

/// What opens and has to be closed.
#[derive(Clone, Copy, Default)]
pub enum Bracket {
    /// `{`, which names and values follow.
    #[default]
    Object,
    /// `[`, which values follow.
    Array,
}

/// What a text between double quotes is.
#[derive(Clone, Copy)]
pub enum Role {
    /// The name of a member.
    Name,
    /// A value.
    Value,
}

/// What is left of one of the words `true`, `false` and `null`, as far as it has come.
#[derive(Clone, Copy)]
pub enum Rest {
    Rue,
    Ue,
    E,
    Alse,
    Lse,
    Se,
    Ull,
    Ll,
    L,
}

/// What a text of JSON may go on with.
#[derive(Clone, Copy)]
pub enum JsonNext {
    /// A value.
    Value,
    /// A value, or the end of an array that has none.
    FirstItem,
    /// The name of a member, or the end of an object that has none.
    FirstName,
    /// The name of a member.
    Name,
    /// The colon behind a name.
    Colon,
    /// A comma, or the end of an array.
    ItemEnd,
    /// A comma, or the end of an object.
    MemberEnd,
    /// Nothing but blanks.
    End,
    /// A character, or the double quote that ends a text.
    Text(Role),
    /// What follows a backslash.
    Escape(Role),
    /// So many hexadecimal digits of an escape.
    Hex(Role, u8),
    /// So many bytes of a character of UTF-8, the first of them between these two.
    Tail {
        role: Role,
        low: u8,
        high: u8,
        left: u8,
    },
    /// The rest of a word.
    Word(Rest),
    /// The first digit of a number that has a minus.
    Minus,
    /// What may follow a zero.
    Zero,
    /// What may follow a digit before the point.
    Whole,
    /// The first digit behind the point.
    Point,
    /// What may follow a digit behind the point.
    Fraction,
    /// A sign or the first digit of an exponent.
    Exponent,
    /// The first digit of an exponent that has a sign.
    Sign,
    /// What may follow a digit of an exponent.
    Power,
}

/// What a byte does.
#[derive(Clone, Copy)]
pub enum Move {
    /// This may follow it.
    To(JsonNext),
    /// It opens an object or an array.
    Open(Bracket),
    /// It closes the last that was opened.
    Close,
    /// It ends a value.
    Ended,
    /// It can't stand there.
    Wrong,
}
