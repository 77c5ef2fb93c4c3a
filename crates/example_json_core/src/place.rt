//! What may come next, by what was read.

/// What may come next where an array, an object or the whole is open.
#[derive(Clone, Copy)]
pub enum Place {
    /// The whole: a value.
    Whole,
    /// An array with nothing inside: a value, or its end.
    Array,
    /// After a comma of an array: a value.
    Element,
    /// After an element: a comma, or the array's end.
    ElementEnd,
    /// An object with nothing inside: a name, or its end.
    Object,
    /// After a comma of an object: a name.
    Name,
    /// After a name: a colon.
    NameEnd,
    /// After a colon: a value.
    Value,
    /// After an entry's value: a comma, or the object's end.
    ValueEnd,
    /// After a number that ended too soon: a digit, which can't come, since the number would have it.
    Digits,
    /// After the whole's value: nothing.
    End,
}

impl Place {
    /// Returns whether a text here is a name.
    pub fn takes_name(self) -> bool {
        matches!(self, Place::Object | Place::Name)
    }

    /// Returns the place after a name or a value, if one may come here.
    pub fn after(self) -> Option<Place> {
        match self {
            Place::Whole => Some(Place::End),
            Place::Array | Place::Element => Some(Place::ElementEnd),
            Place::Object | Place::Name => Some(Place::NameEnd),
            Place::Value => Some(Place::ValueEnd),
            _ => None,
        }
    }

    /// Returns the place after a comma or a colon, if it may come here, or after a blank.
    pub fn after_sign(self, sign: u8) -> Option<Place> {
        match (self, sign) {
            (Place::ElementEnd, b',') => Some(Place::Element),
            (Place::ValueEnd, b',') => Some(Place::Name),
            (Place::NameEnd, b':') => Some(Place::Value),
            (_, b' ' | b'\t' | b'\n' | b'\r') => Some(self),
            _ => None,
        }
    }

    /// Returns the message of a refusal of anything else here.
    pub fn expected(self) -> &'static str {
        match self {
            Place::Whole | Place::Element | Place::Value => "value expected",
            Place::Array => "value or ] expected",
            Place::ElementEnd => "comma or ] expected",
            Place::Object => "name or } expected",
            Place::Name => "name expected",
            Place::NameEnd => "colon expected",
            Place::ValueEnd => "comma or } expected",
            Place::Digits => "digit expected",
            Place::End => "end expected",
        }
    }
}
