//! The mnemonics of instructions (JVMS 6.5).

ghost use Rattle.std.specs.Prelude.{◌≡◌, option_map, find, map, bytes_eq};
ghost use Rattle.assembler_model.specs.Mnemonics.{mnemonic_of};
ghost use Rattle.asm_lines.specs.Forms.{mnemonic_of as view};

/// The form of an instruction's operands in a line.
#[derive(Clone, Copy, Debug)]
pub enum OperandForm {
    None,
    Local,
    Byte,
    Short,
    /// A label, as an offset of two bytes.
    Branch,
    /// A label, as an offset of four bytes.
    WideBranch,
    Field,
    Method,
    InterfaceMethod,
    Class,
    /// `int N` or `string TEXT`.
    Constant,
    /// `long N`.
    Long,
    ArrayType,
    Increment,
    Table,
    Lookup,
}

/// A mnemonic, with its opcode and the form of its operands.
#[derive(Clone, Copy, Debug)]
pub struct Mnemonic {
    pub word: &'static [u8],
    pub opcode: u8,
    pub form: OperandForm,
}

/// All mnemonics, in the order of the opcodes. `wide` and `ldc_w` are no words here, since the
/// operands tell where they are chosen.
static MNEMONICS: [Mnemonic; 138] = [
    Mnemonic {
        word: b"nop",
        opcode: 0,
        form: OperandForm::None,
    },
    Mnemonic {
        word: b"aconst_null",
        opcode: 1,
        form: OperandForm::None,
    },
    Mnemonic {
        word: b"iconst_m1",
        opcode: 2,
        form: OperandForm::None,
    },
    Mnemonic {
        word: b"iconst_0",
        opcode: 3,
        form: OperandForm::None,
    },
    Mnemonic {
        word: b"iconst_1",
        opcode: 4,
        form: OperandForm::None,
    },
    Mnemonic {
        word: b"iconst_2",
        opcode: 5,
        form: OperandForm::None,
    },
    Mnemonic {
        word: b"iconst_3",
        opcode: 6,
        form: OperandForm::None,
    },
    Mnemonic {
        word: b"iconst_4",
        opcode: 7,
        form: OperandForm::None,
    },
    Mnemonic {
        word: b"iconst_5",
        opcode: 8,
        form: OperandForm::None,
    },
    Mnemonic {
        word: b"lconst_0",
        opcode: 9,
        form: OperandForm::None,
    },
    Mnemonic {
        word: b"lconst_1",
        opcode: 10,
        form: OperandForm::None,
    },
    Mnemonic {
        word: b"bipush",
        opcode: 16,
        form: OperandForm::Byte,
    },
    Mnemonic {
        word: b"sipush",
        opcode: 17,
        form: OperandForm::Short,
    },
    Mnemonic {
        word: b"ldc",
        opcode: 18,
        form: OperandForm::Constant,
    },
    Mnemonic {
        word: b"ldc2_w",
        opcode: 20,
        form: OperandForm::Long,
    },
    Mnemonic {
        word: b"iload",
        opcode: 21,
        form: OperandForm::Local,
    },
    Mnemonic {
        word: b"lload",
        opcode: 22,
        form: OperandForm::Local,
    },
    Mnemonic {
        word: b"aload",
        opcode: 25,
        form: OperandForm::Local,
    },
    Mnemonic {
        word: b"iload_0",
        opcode: 26,
        form: OperandForm::None,
    },
    Mnemonic {
        word: b"iload_1",
        opcode: 27,
        form: OperandForm::None,
    },
    Mnemonic {
        word: b"iload_2",
        opcode: 28,
        form: OperandForm::None,
    },
    Mnemonic {
        word: b"iload_3",
        opcode: 29,
        form: OperandForm::None,
    },
    Mnemonic {
        word: b"lload_0",
        opcode: 30,
        form: OperandForm::None,
    },
    Mnemonic {
        word: b"lload_1",
        opcode: 31,
        form: OperandForm::None,
    },
    Mnemonic {
        word: b"lload_2",
        opcode: 32,
        form: OperandForm::None,
    },
    Mnemonic {
        word: b"lload_3",
        opcode: 33,
        form: OperandForm::None,
    },
    Mnemonic {
        word: b"aload_0",
        opcode: 42,
        form: OperandForm::None,
    },
    Mnemonic {
        word: b"aload_1",
        opcode: 43,
        form: OperandForm::None,
    },
    Mnemonic {
        word: b"aload_2",
        opcode: 44,
        form: OperandForm::None,
    },
    Mnemonic {
        word: b"aload_3",
        opcode: 45,
        form: OperandForm::None,
    },
    Mnemonic {
        word: b"iaload",
        opcode: 46,
        form: OperandForm::None,
    },
    Mnemonic {
        word: b"laload",
        opcode: 47,
        form: OperandForm::None,
    },
    Mnemonic {
        word: b"aaload",
        opcode: 50,
        form: OperandForm::None,
    },
    Mnemonic {
        word: b"baload",
        opcode: 51,
        form: OperandForm::None,
    },
    Mnemonic {
        word: b"caload",
        opcode: 52,
        form: OperandForm::None,
    },
    Mnemonic {
        word: b"saload",
        opcode: 53,
        form: OperandForm::None,
    },
    Mnemonic {
        word: b"istore",
        opcode: 54,
        form: OperandForm::Local,
    },
    Mnemonic {
        word: b"lstore",
        opcode: 55,
        form: OperandForm::Local,
    },
    Mnemonic {
        word: b"astore",
        opcode: 58,
        form: OperandForm::Local,
    },
    Mnemonic {
        word: b"istore_0",
        opcode: 59,
        form: OperandForm::None,
    },
    Mnemonic {
        word: b"istore_1",
        opcode: 60,
        form: OperandForm::None,
    },
    Mnemonic {
        word: b"istore_2",
        opcode: 61,
        form: OperandForm::None,
    },
    Mnemonic {
        word: b"istore_3",
        opcode: 62,
        form: OperandForm::None,
    },
    Mnemonic {
        word: b"lstore_0",
        opcode: 63,
        form: OperandForm::None,
    },
    Mnemonic {
        word: b"lstore_1",
        opcode: 64,
        form: OperandForm::None,
    },
    Mnemonic {
        word: b"lstore_2",
        opcode: 65,
        form: OperandForm::None,
    },
    Mnemonic {
        word: b"lstore_3",
        opcode: 66,
        form: OperandForm::None,
    },
    Mnemonic {
        word: b"astore_0",
        opcode: 75,
        form: OperandForm::None,
    },
    Mnemonic {
        word: b"astore_1",
        opcode: 76,
        form: OperandForm::None,
    },
    Mnemonic {
        word: b"astore_2",
        opcode: 77,
        form: OperandForm::None,
    },
    Mnemonic {
        word: b"astore_3",
        opcode: 78,
        form: OperandForm::None,
    },
    Mnemonic {
        word: b"iastore",
        opcode: 79,
        form: OperandForm::None,
    },
    Mnemonic {
        word: b"lastore",
        opcode: 80,
        form: OperandForm::None,
    },
    Mnemonic {
        word: b"aastore",
        opcode: 83,
        form: OperandForm::None,
    },
    Mnemonic {
        word: b"bastore",
        opcode: 84,
        form: OperandForm::None,
    },
    Mnemonic {
        word: b"castore",
        opcode: 85,
        form: OperandForm::None,
    },
    Mnemonic {
        word: b"sastore",
        opcode: 86,
        form: OperandForm::None,
    },
    Mnemonic {
        word: b"pop",
        opcode: 87,
        form: OperandForm::None,
    },
    Mnemonic {
        word: b"pop2",
        opcode: 88,
        form: OperandForm::None,
    },
    Mnemonic {
        word: b"dup",
        opcode: 89,
        form: OperandForm::None,
    },
    Mnemonic {
        word: b"dup_x1",
        opcode: 90,
        form: OperandForm::None,
    },
    Mnemonic {
        word: b"dup_x2",
        opcode: 91,
        form: OperandForm::None,
    },
    Mnemonic {
        word: b"dup2",
        opcode: 92,
        form: OperandForm::None,
    },
    Mnemonic {
        word: b"dup2_x1",
        opcode: 93,
        form: OperandForm::None,
    },
    Mnemonic {
        word: b"dup2_x2",
        opcode: 94,
        form: OperandForm::None,
    },
    Mnemonic {
        word: b"swap",
        opcode: 95,
        form: OperandForm::None,
    },
    Mnemonic {
        word: b"iadd",
        opcode: 96,
        form: OperandForm::None,
    },
    Mnemonic {
        word: b"ladd",
        opcode: 97,
        form: OperandForm::None,
    },
    Mnemonic {
        word: b"isub",
        opcode: 100,
        form: OperandForm::None,
    },
    Mnemonic {
        word: b"lsub",
        opcode: 101,
        form: OperandForm::None,
    },
    Mnemonic {
        word: b"imul",
        opcode: 104,
        form: OperandForm::None,
    },
    Mnemonic {
        word: b"lmul",
        opcode: 105,
        form: OperandForm::None,
    },
    Mnemonic {
        word: b"idiv",
        opcode: 108,
        form: OperandForm::None,
    },
    Mnemonic {
        word: b"ldiv",
        opcode: 109,
        form: OperandForm::None,
    },
    Mnemonic {
        word: b"irem",
        opcode: 112,
        form: OperandForm::None,
    },
    Mnemonic {
        word: b"lrem",
        opcode: 113,
        form: OperandForm::None,
    },
    Mnemonic {
        word: b"ineg",
        opcode: 116,
        form: OperandForm::None,
    },
    Mnemonic {
        word: b"lneg",
        opcode: 117,
        form: OperandForm::None,
    },
    Mnemonic {
        word: b"ishl",
        opcode: 120,
        form: OperandForm::None,
    },
    Mnemonic {
        word: b"lshl",
        opcode: 121,
        form: OperandForm::None,
    },
    Mnemonic {
        word: b"ishr",
        opcode: 122,
        form: OperandForm::None,
    },
    Mnemonic {
        word: b"lshr",
        opcode: 123,
        form: OperandForm::None,
    },
    Mnemonic {
        word: b"iushr",
        opcode: 124,
        form: OperandForm::None,
    },
    Mnemonic {
        word: b"lushr",
        opcode: 125,
        form: OperandForm::None,
    },
    Mnemonic {
        word: b"iand",
        opcode: 126,
        form: OperandForm::None,
    },
    Mnemonic {
        word: b"land",
        opcode: 127,
        form: OperandForm::None,
    },
    Mnemonic {
        word: b"ior",
        opcode: 128,
        form: OperandForm::None,
    },
    Mnemonic {
        word: b"lor",
        opcode: 129,
        form: OperandForm::None,
    },
    Mnemonic {
        word: b"ixor",
        opcode: 130,
        form: OperandForm::None,
    },
    Mnemonic {
        word: b"lxor",
        opcode: 131,
        form: OperandForm::None,
    },
    Mnemonic {
        word: b"iinc",
        opcode: 132,
        form: OperandForm::Increment,
    },
    Mnemonic {
        word: b"i2l",
        opcode: 133,
        form: OperandForm::None,
    },
    Mnemonic {
        word: b"l2i",
        opcode: 136,
        form: OperandForm::None,
    },
    Mnemonic {
        word: b"i2b",
        opcode: 145,
        form: OperandForm::None,
    },
    Mnemonic {
        word: b"i2c",
        opcode: 146,
        form: OperandForm::None,
    },
    Mnemonic {
        word: b"i2s",
        opcode: 147,
        form: OperandForm::None,
    },
    Mnemonic {
        word: b"lcmp",
        opcode: 148,
        form: OperandForm::None,
    },
    Mnemonic {
        word: b"ifeq",
        opcode: 153,
        form: OperandForm::Branch,
    },
    Mnemonic {
        word: b"ifne",
        opcode: 154,
        form: OperandForm::Branch,
    },
    Mnemonic {
        word: b"iflt",
        opcode: 155,
        form: OperandForm::Branch,
    },
    Mnemonic {
        word: b"ifge",
        opcode: 156,
        form: OperandForm::Branch,
    },
    Mnemonic {
        word: b"ifgt",
        opcode: 157,
        form: OperandForm::Branch,
    },
    Mnemonic {
        word: b"ifle",
        opcode: 158,
        form: OperandForm::Branch,
    },
    Mnemonic {
        word: b"if_icmpeq",
        opcode: 159,
        form: OperandForm::Branch,
    },
    Mnemonic {
        word: b"if_icmpne",
        opcode: 160,
        form: OperandForm::Branch,
    },
    Mnemonic {
        word: b"if_icmplt",
        opcode: 161,
        form: OperandForm::Branch,
    },
    Mnemonic {
        word: b"if_icmpge",
        opcode: 162,
        form: OperandForm::Branch,
    },
    Mnemonic {
        word: b"if_icmpgt",
        opcode: 163,
        form: OperandForm::Branch,
    },
    Mnemonic {
        word: b"if_icmple",
        opcode: 164,
        form: OperandForm::Branch,
    },
    Mnemonic {
        word: b"if_acmpeq",
        opcode: 165,
        form: OperandForm::Branch,
    },
    Mnemonic {
        word: b"if_acmpne",
        opcode: 166,
        form: OperandForm::Branch,
    },
    Mnemonic {
        word: b"goto",
        opcode: 167,
        form: OperandForm::Branch,
    },
    Mnemonic {
        word: b"tableswitch",
        opcode: 170,
        form: OperandForm::Table,
    },
    Mnemonic {
        word: b"lookupswitch",
        opcode: 171,
        form: OperandForm::Lookup,
    },
    Mnemonic {
        word: b"ireturn",
        opcode: 172,
        form: OperandForm::None,
    },
    Mnemonic {
        word: b"lreturn",
        opcode: 173,
        form: OperandForm::None,
    },
    Mnemonic {
        word: b"areturn",
        opcode: 176,
        form: OperandForm::None,
    },
    Mnemonic {
        word: b"return",
        opcode: 177,
        form: OperandForm::None,
    },
    Mnemonic {
        word: b"getstatic",
        opcode: 178,
        form: OperandForm::Field,
    },
    Mnemonic {
        word: b"putstatic",
        opcode: 179,
        form: OperandForm::Field,
    },
    Mnemonic {
        word: b"getfield",
        opcode: 180,
        form: OperandForm::Field,
    },
    Mnemonic {
        word: b"putfield",
        opcode: 181,
        form: OperandForm::Field,
    },
    Mnemonic {
        word: b"invokevirtual",
        opcode: 182,
        form: OperandForm::Method,
    },
    Mnemonic {
        word: b"invokespecial",
        opcode: 183,
        form: OperandForm::Method,
    },
    Mnemonic {
        word: b"invokestatic",
        opcode: 184,
        form: OperandForm::Method,
    },
    Mnemonic {
        word: b"invokeinterface",
        opcode: 185,
        form: OperandForm::InterfaceMethod,
    },
    Mnemonic {
        word: b"new",
        opcode: 187,
        form: OperandForm::Class,
    },
    Mnemonic {
        word: b"newarray",
        opcode: 188,
        form: OperandForm::ArrayType,
    },
    Mnemonic {
        word: b"anewarray",
        opcode: 189,
        form: OperandForm::Class,
    },
    Mnemonic {
        word: b"arraylength",
        opcode: 190,
        form: OperandForm::None,
    },
    Mnemonic {
        word: b"athrow",
        opcode: 191,
        form: OperandForm::None,
    },
    Mnemonic {
        word: b"checkcast",
        opcode: 192,
        form: OperandForm::Class,
    },
    Mnemonic {
        word: b"instanceof",
        opcode: 193,
        form: OperandForm::Class,
    },
    Mnemonic {
        word: b"monitorenter",
        opcode: 194,
        form: OperandForm::None,
    },
    Mnemonic {
        word: b"monitorexit",
        opcode: 195,
        form: OperandForm::None,
    },
    Mnemonic {
        word: b"ifnull",
        opcode: 198,
        form: OperandForm::Branch,
    },
    Mnemonic {
        word: b"ifnonnull",
        opcode: 199,
        form: OperandForm::Branch,
    },
    Mnemonic {
        word: b"goto_w",
        opcode: 200,
        form: OperandForm::WideBranch,
    },
];

/// The first of these mnemonics that a word is.
fn found_in(mnemonics: &[Mnemonic], word: &[u8]) -> Option<Mnemonic>
    ensures { option_map view result ≡ find (λ mnemonic. bytes_eq mnemonic.word word.now) (map view mnemonics.now) }
{
    for mnemonic in mnemonics {
        if mnemonic.word == word {
            return Some(*mnemonic);
        }
    }
    None
}

/// The mnemonic that a word is.
#[tactic(auto, unfolding(assembler_model::specs::Mnemonics::mnemonics))]
pub fn mnemonic_of(word: &[u8]) -> Option<Mnemonic>
    ensures { option_map view result ≡ mnemonic_of word.now }
{
    found_in(&MNEMONICS, word)
}
