//! Types.

ghost use Rattle.std.specs.Prelude.{◌≡◌};
ghost use Rattle.world_model.specs.World.{World as ModelWorld};
ghost use Rattle.typing_model.specs.VerificationType.{type_of as model_type_of, words as model_words, is_one_word as model_is_one_word};
ghost use Rattle.type_rules.specs.Types.{letter_of, type_of, field_type_of, IsKnownElement, IsKnownType};

use jv_types::ClassNo;

/// A field type that is no array (JVMS table 4.3-A).
#[derive(Clone, Copy, Debug, PartialEq, Eq)]
pub enum ElementType {
    Byte,
    Char,
    Double,
    Float,
    Int,
    Long,
    Short,
    Boolean,
    /// A class or an interface.
    Class(ClassNo),
}

/// A field type (JVMS 4.3.2): an element type, or an array of so many dimensions of it.
#[derive(Clone, Copy, Debug, PartialEq, Eq)]
pub struct FieldType {
    /// 0 where it is no array.
    pub dimensions: u8,
    pub element: ElementType,
}

/// A type that the verifier tells apart (JVMS 4.10.1.2).
#[derive(Clone, Copy, Debug, PartialEq, Eq)]
pub enum VerificationType {
    Top,
    /// Boolean, byte, char, short and int.
    Int,
    Long,
    Null,
    /// `uninitializedThis`.
    This,
    /// `uninitialized`: the pc of its `new`.
    New(u32),
    /// A class or an interface.
    Class(ClassNo),
    /// An array, by the type of its components.
    Array(FieldType),
}

impl ElementType {
    /// The letter that a descriptor of the type begins with (JVMS table 4.3-A).
    pub fn letter(self) -> u8
        ensures { result ≡ letter_of self }
    {
        match self {
            ElementType::Byte => b'B',
            ElementType::Char => b'C',
            ElementType::Double => b'D',
            ElementType::Float => b'F',
            ElementType::Int => b'I',
            ElementType::Long => b'J',
            ElementType::Short => b'S',
            ElementType::Boolean => b'Z',
            ElementType::Class(_) => b'L',
        }
    }

    /// What a local or an operand of the type is to the verifier.
    #[tactic(auto, unfolding(typing_model::specs::VerificationType::type_of))]
    fn verification_type(self) -> VerificationType
        ensures same { (world : ModelWorld) → type_of world result
            ≡ model_type_of (field_type_of world (record { dimensions = 0; element = self })) }
        ensures known { (world : ModelWorld) → IsKnownElement world self
            → IsKnownType world result }
    {
        match self {
            ElementType::Double | ElementType::Float => VerificationType::Top,
            ElementType::Long => VerificationType::Long,
            ElementType::Class(class) => VerificationType::Class(class),
            ElementType::Byte
            | ElementType::Char
            | ElementType::Int
            | ElementType::Short
            | ElementType::Boolean => VerificationType::Int,
        }
    }
}

impl FieldType {
    /// What a local or an operand of the type is to the verifier.
    pub fn verification_type(self) -> VerificationType
        ensures same { (world : ModelWorld) → type_of world result
            ≡ model_type_of (field_type_of world self) }
        ensures known { (world : ModelWorld) → IsKnownElement world self.element
            → IsKnownType world result }
    {
        if self.dimensions == 0 {
            return self.element.verification_type();
        }
        VerificationType::Array(FieldType {
            dimensions: self.dimensions - 1,
            element: self.element,
        })
    }
}
