// Node words: a definition with up to three nodes as its arguments.
ghost use Rattle.std.specs.Prelude.{◌≡◌, Some, IfSome};
ghost use Rattle.rgctx_words.specs.NodeWords.{node_word, node_read, number_of, IsNumbered, definition_of};

/// What a node word says: the number of a definition, and the nodes of its arguments in order, 0 where there
/// is none. A method's first argument is the node of its class.
#[derive(Clone, Copy, Debug, PartialEq, Eq)]
pub struct NodeWord {
    pub definition: u16,
    pub first: u16,
    pub second: u16,
    pub third: u16,
}

impl NodeWord {
    /// What a word says.
    pub fn of(word: u64) -> NodeWord
        ensures node { result ≡ node_read word }
        ensures back { node_word result ≡ word }
    {
        NodeWord {
            definition: (word / 0x1_0000_0000_0000) as u16,
            first: (word / 0x1_0000_0000 % 0x1_0000) as u16,
            second: (word / 0x1_0000 % 0x1_0000) as u16,
            third: (word % 0x1_0000) as u16,
        }
    }

    /// The word: the definition in the highest 16 bits, then the arguments in order.
    pub fn word(self) -> u64
        ensures word { result ≡ node_word self }
        ensures back { node_read result ≡ self }
    {
        u64::from(self.definition) * 0x1_0000_0000_0000
            + u64::from(self.first) * 0x1_0000_0000
            + u64::from(self.second) * 0x1_0000
            + u64::from(self.third)
    }
}

/// What a node is made of: a type's head, the image, or a method. Classes and methods go by their numbers in
/// the program, from 0.
#[derive(Clone, Copy, Debug, PartialEq, Eq)]
pub enum Definition {
    Int32,
    Int64,
    Bool,
    Vector,
    Image,
    Class(u16),
    Method(u16),
}

impl Definition {
    /// The definition that a number stands for in a node word; None where it stands for none.
    pub fn of(number: u16) -> Option<Definition>
        ensures definition { result ≡ definition_of number }
        ensures back { IfSome result (λ d. IsNumbered d × (number_of d ≡ number)) }
    {
        if number >= 0x8000 {
            return Some(Definition::Method(number - 0x8000));
        }
        match number {
            1 => Some(Definition::Int32),
            2 => Some(Definition::Int64),
            3 => Some(Definition::Bool),
            4 => Some(Definition::Vector),
            15 => Some(Definition::Image),
            0..=15 => None,
            _ => Some(Definition::Class(number - 16)),
        }
    }

    /// The number that stands for it in a node word.
    pub fn number(self) -> u16
        requires { IsNumbered self }
        ensures number { result ≡ number_of self }
        ensures back { definition_of result ≡ Some self }
    {
        match self {
            Definition::Int32 => 1,
            Definition::Int64 => 2,
            Definition::Bool => 3,
            Definition::Vector => 4,
            Definition::Image => 15,
            Definition::Class(number) => 16 + number,
            Definition::Method(number) => 0x8000 + number,
        }
    }
}
