//! The codes of refusals.

ghost use Rattle.std.specs.Prelude.{◌≡◌, [], ◌∷◌, Some, codes};
ghost use Rattle.debug_records.specs.Code.{code_text, letter_byte};

use std::fmt;

/// What a code begins with: which kind of rule is broken.
#[derive(Clone, Copy, Debug, PartialEq, Eq)]
pub enum Letter {
    /// A rule of the language, broken by a source.
    E,
    /// A limit of the compiler, passed by a source.
    L,
    /// A rule of scripts.
    S,
    /// A rule of images.
    I,
    /// A rule of transcripts.
    A,
}

impl fmt::Display for Letter {
    ghost output = { λ letter. Some (letter_byte letter ∷ []) };

    fn fmt<W: fmt::Write>(&self, f: &mut fmt::Formatter<W>) -> fmt::Result {
        f.write_str(match self {
            Letter::E => "E",
            Letter::L => "L",
            Letter::S => "S",
            Letter::I => "I",
            Letter::A => "A",
        })
    }
}

/// The code of a refusal, a letter and a number, shown as `E29` or `S01`.
#[derive(Clone, Copy, Debug, PartialEq, Eq)]
pub struct Code {
    pub letter: Letter,
    pub number: u8,
}

impl Code {
    /// E01: a byte begins no token of the language.
    pub const UNKNOWN_BYTE: Code = Code {
        letter: Letter::E,
        number: 1,
    };

    /// E02: a comment has no end.
    pub const UNENDED_COMMENT: Code = Code {
        letter: Letter::E,
        number: 2,
    };

    /// E03: a literal has no end, or a character constant is not of one character.
    pub const MALFORMED_LITERAL: Code = Code {
        letter: Letter::E,
        number: 3,
    };

    /// E04: a constant is out of range, or of another form.
    pub const MALFORMED_CONSTANT: Code = Code {
        letter: Letter::E,
        number: 4,
    };

    /// E05: an escape is none of the language.
    pub const UNKNOWN_ESCAPE: Code = Code {
        letter: Letter::E,
        number: 5,
    };

    /// E06: a directive is no include of the two headers, or stands inside a function.
    pub const UNKNOWN_DIRECTIVE: Code = Code {
        letter: Letter::E,
        number: 6,
    };

    /// E10: a token stands where no construct takes it.
    pub const UNEXPECTED_TOKEN: Code = Code {
        letter: Letter::E,
        number: 10,
    };

    /// E11: a keyword stands where no construct takes it, or a construct is left out of the language.
    pub const UNEXPECTED_KEYWORD: Code = Code {
        letter: Letter::E,
        number: 11,
    };

    /// E20: a name is not declared, or a called function never defined.
    pub const UNDECLARED: Code = Code {
        letter: Letter::E,
        number: 20,
    };

    /// E21: a name is declared again.
    pub const REDECLARED: Code = Code {
        letter: Letter::E,
        number: 21,
    };

    /// E22: operands are of types that their operator does not take.
    pub const OPERAND_TYPES: Code = Code {
        letter: Letter::E,
        number: 22,
    };

    /// E23: what is written or has its address taken is no lvalue.
    pub const NOT_AN_LVALUE: Code = Code {
        letter: Letter::E,
        number: 23,
    };

    /// E24: a call has another number or other types of arguments than its function takes.
    pub const ARGUMENTS: Code = Code {
        letter: Letter::E,
        number: 24,
    };

    /// E25: a `return` does not fit what its function gives.
    pub const RETURN_MISMATCH: Code = Code {
        letter: Letter::E,
        number: 25,
    };

    /// E26: a `break`, `continue`, `case` or `default` stands where it has nothing to go to.
    pub const MISPLACED_JUMP: Code = Code {
        letter: Letter::E,
        number: 26,
    };

    /// E27: an initializer does not fit what it initialises.
    pub const INITIALIZER: Code = Code {
        letter: Letter::E,
        number: 27,
    };

    /// E28: a `case` or `default` is repeated in its `switch`.
    pub const REPEATED_LABEL: Code = Code {
        letter: Letter::E,
        number: 28,
    };

    /// E29: there is no `int main(void)`.
    pub const NO_MAIN: Code = Code {
        letter: Letter::E,
        number: 29,
    };

    /// E30: a member is none of its structure, or the size of a type is wanted that is not complete.
    pub const UNKNOWN_MEMBER: Code = Code {
        letter: Letter::E,
        number: 30,
    };

    /// E31: a tag or a member is repeated.
    pub const REPEATED_MEMBER: Code = Code {
        letter: Letter::E,
        number: 31,
    };

    /// L01: the text has over 1,048,576 bytes.
    pub const TEXT_SIZE: Code = Code {
        letter: Letter::L,
        number: 1,
    };

    /// L02: a token is nested over 64 deep.
    pub const NESTING: Code = Code {
        letter: Letter::L,
        number: 2,
    };

    /// L03: a function weighs over 3,000.
    pub const FUNCTION_WEIGHT: Code = Code {
        letter: Letter::L,
        number: 3,
    };

    /// L04: the program weighs over 40,000.
    pub const PROGRAM_WEIGHT: Code = Code {
        letter: Letter::L,
        number: 4,
    };

    /// L05: the memory objects of a function take over 4,096 bytes.
    pub const FUNCTION_OBJECTS: Code = Code {
        letter: Letter::L,
        number: 5,
    };

    /// L06: the static objects take over 1 MiB.
    pub const STATIC_OBJECTS: Code = Code {
        letter: Letter::L,
        number: 6,
    };

    /// L07: there are over 256 functions, or a function has over 8 parameters.
    pub const FUNCTION_COUNT: Code = Code {
        letter: Letter::L,
        number: 7,
    };

    /// L08: there are over 1,000,000 pairs of a place and a visible variable.
    pub const VISIBLE_PAIRS: Code = Code {
        letter: Letter::L,
        number: 8,
    };

    /// L09: an identifier has over 63 bytes.
    pub const NAME_SIZE: Code = Code {
        letter: Letter::L,
        number: 9,
    };

    /// L10: there are over 1,000,000 pairs of a call and a visible variable.
    pub const CALL_PAIRS: Code = Code {
        letter: Letter::L,
        number: 10,
    };

    /// L11: a structure takes over 4,092 bytes.
    pub const STRUCTURE_SIZE: Code = Code {
        letter: Letter::L,
        number: 11,
    };

    /// S01: a line of a script is no command, or has words too many.
    pub const UNKNOWN_COMMAND: Code = Code {
        letter: Letter::S,
        number: 1,
    };

    /// S02: the line of a `break` is no number of 1 to 9 digits that begins with 1 to 9.
    pub const LINE_NUMBER: Code = Code {
        letter: Letter::S,
        number: 2,
    };

    /// S03: the name of a command is missing, or no identifier.
    pub const COMMAND_NAME: Code = Code {
        letter: Letter::S,
        number: 3,
    };

    /// S04: a line of a script has over 200 bytes.
    pub const LINE_SIZE: Code = Code {
        letter: Letter::S,
        number: 4,
    };

    /// I01: an image has fewer than 64 bytes.
    pub const HEADER_SIZE: Code = Code {
        letter: Letter::I,
        number: 1,
    };

    /// I02: an image does not begin with `CDBG`.
    pub const MAGIC: Code = Code {
        letter: Letter::I,
        number: 2,
    };

    /// I03: the version of an image is unknown.
    pub const VERSION: Code = Code {
        letter: Letter::I,
        number: 3,
    };

    /// I04: the length in the header is not the number of bytes, or not the sum of the sections.
    pub const LENGTH: Code = Code {
        letter: Letter::I,
        number: 4,
    };

    /// I05: a mode or a count of the header is out of its range.
    pub const HEADER_NUMBERS: Code = Code {
        letter: Letter::I,
        number: 5,
    };

    /// I06: a record of a function breaks a rule.
    pub const FUNCTIONS: Code = Code {
        letter: Letter::I,
        number: 6,
    };

    /// I07: a record of a place breaks a rule.
    pub const PLACES: Code = Code {
        letter: Letter::I,
        number: 7,
    };

    /// I08: the place of a code word breaks a rule.
    pub const OWNERS: Code = Code {
        letter: Letter::I,
        number: 8,
    };

    /// I09: a record of a variable breaks a rule.
    pub const VARIABLES: Code = Code {
        letter: Letter::I,
        number: 9,
    };

    /// I10: a record of a change breaks a rule.
    pub const CHANGES: Code = Code {
        letter: Letter::I,
        number: 10,
    };

    /// I11: a pair of the flow, an assigned pair or a visible row breaks a rule.
    pub const PAIRS_AND_ROWS: Code = Code {
        letter: Letter::I,
        number: 11,
    };

    /// I12: a node of a recipe or a name breaks a rule.
    pub const NODES_AND_NAMES: Code = Code {
        letter: Letter::I,
        number: 12,
    };

    /// I13: a call row or a member breaks a rule.
    pub const CALLS_AND_MEMBERS: Code = Code {
        letter: Letter::I,
        number: 13,
    };

    /// A01: the tables of an image are not those of the program.
    pub const TABLES: Code = Code {
        letter: Letter::A,
        number: 1,
    };

    /// A02: a line of a transcript is none that a session prints.
    pub const TRANSCRIPT_LINE: Code = Code {
        letter: Letter::A,
        number: 2,
    };

    /// A03: a line tells of a stop that is no reached place of that line and function.
    pub const STOP: Code = Code {
        letter: Letter::A,
        number: 3,
    };

    /// A04: a verdict stands where no stop is, or its path ends elsewhere.
    pub const STRAY_VERDICT: Code = Code {
        letter: Letter::A,
        number: 4,
    };

    /// A05: no row of the image has the variable, the verdict and the change.
    pub const NO_ROW: Code = Code {
        letter: Letter::A,
        number: 5,
    };

    /// A06: the path of a verdict is of another form, or nothing bears out its change.
    pub const EVIDENCE: Code = Code {
        letter: Letter::A,
        number: 6,
    };
}

impl fmt::Display for Code {
    ghost output = { λ code. Some (code_text code) };

    #[tactic(auto, using(crate::proofs::TwoDigits::padded_two_digits))]
    fn fmt<W: fmt::Write>(&self, f: &mut fmt::Formatter<W>) -> fmt::Result {
        let letter = self.letter;
        let number = self.number;
        write!(f, "{letter}{number:02}")
    }
}

/// A law: the codes in use are shown as they are documented.
pub fn codes_in_use()
    ensures unknown_byte { code_text Code.UNKNOWN_BYTE ≡ codes "E01" }
    ensures unended_comment { code_text Code.UNENDED_COMMENT ≡ codes "E02" }
    ensures malformed_literal { code_text Code.MALFORMED_LITERAL ≡ codes "E03" }
    ensures malformed_constant { code_text Code.MALFORMED_CONSTANT ≡ codes "E04" }
    ensures unknown_escape { code_text Code.UNKNOWN_ESCAPE ≡ codes "E05" }
    ensures unknown_directive { code_text Code.UNKNOWN_DIRECTIVE ≡ codes "E06" }
    ensures unexpected_token { code_text Code.UNEXPECTED_TOKEN ≡ codes "E10" }
    ensures unexpected_keyword { code_text Code.UNEXPECTED_KEYWORD ≡ codes "E11" }
    ensures undeclared { code_text Code.UNDECLARED ≡ codes "E20" }
    ensures redeclared { code_text Code.REDECLARED ≡ codes "E21" }
    ensures operand_types { code_text Code.OPERAND_TYPES ≡ codes "E22" }
    ensures not_an_lvalue { code_text Code.NOT_AN_LVALUE ≡ codes "E23" }
    ensures arguments { code_text Code.ARGUMENTS ≡ codes "E24" }
    ensures return_mismatch { code_text Code.RETURN_MISMATCH ≡ codes "E25" }
    ensures misplaced_jump { code_text Code.MISPLACED_JUMP ≡ codes "E26" }
    ensures initializer { code_text Code.INITIALIZER ≡ codes "E27" }
    ensures repeated_label { code_text Code.REPEATED_LABEL ≡ codes "E28" }
    ensures no_main { code_text Code.NO_MAIN ≡ codes "E29" }
    ensures unknown_member { code_text Code.UNKNOWN_MEMBER ≡ codes "E30" }
    ensures repeated_member { code_text Code.REPEATED_MEMBER ≡ codes "E31" }
    ensures text_size { code_text Code.TEXT_SIZE ≡ codes "L01" }
    ensures nesting { code_text Code.NESTING ≡ codes "L02" }
    ensures function_weight { code_text Code.FUNCTION_WEIGHT ≡ codes "L03" }
    ensures program_weight { code_text Code.PROGRAM_WEIGHT ≡ codes "L04" }
    ensures function_objects { code_text Code.FUNCTION_OBJECTS ≡ codes "L05" }
    ensures static_objects { code_text Code.STATIC_OBJECTS ≡ codes "L06" }
    ensures function_count { code_text Code.FUNCTION_COUNT ≡ codes "L07" }
    ensures visible_pairs { code_text Code.VISIBLE_PAIRS ≡ codes "L08" }
    ensures name_size { code_text Code.NAME_SIZE ≡ codes "L09" }
    ensures call_pairs { code_text Code.CALL_PAIRS ≡ codes "L10" }
    ensures structure_size { code_text Code.STRUCTURE_SIZE ≡ codes "L11" }
    ensures unknown_command { code_text Code.UNKNOWN_COMMAND ≡ codes "S01" }
    ensures line_number { code_text Code.LINE_NUMBER ≡ codes "S02" }
    ensures command_name { code_text Code.COMMAND_NAME ≡ codes "S03" }
    ensures line_size { code_text Code.LINE_SIZE ≡ codes "S04" }
    ensures header_size { code_text Code.HEADER_SIZE ≡ codes "I01" }
    ensures magic { code_text Code.MAGIC ≡ codes "I02" }
    ensures version { code_text Code.VERSION ≡ codes "I03" }
    ensures length { code_text Code.LENGTH ≡ codes "I04" }
    ensures header_numbers { code_text Code.HEADER_NUMBERS ≡ codes "I05" }
    ensures functions { code_text Code.FUNCTIONS ≡ codes "I06" }
    ensures places { code_text Code.PLACES ≡ codes "I07" }
    ensures owners { code_text Code.OWNERS ≡ codes "I08" }
    ensures variables { code_text Code.VARIABLES ≡ codes "I09" }
    ensures changes { code_text Code.CHANGES ≡ codes "I10" }
    ensures pairs_and_rows { code_text Code.PAIRS_AND_ROWS ≡ codes "I11" }
    ensures nodes_and_names { code_text Code.NODES_AND_NAMES ≡ codes "I12" }
    ensures calls_and_members { code_text Code.CALLS_AND_MEMBERS ≡ codes "I13" }
    ensures tables { code_text Code.TABLES ≡ codes "A01" }
    ensures transcript_line { code_text Code.TRANSCRIPT_LINE ≡ codes "A02" }
    ensures stop { code_text Code.STOP ≡ codes "A03" }
    ensures stray_verdict { code_text Code.STRAY_VERDICT ≡ codes "A04" }
    ensures no_row { code_text Code.NO_ROW ≡ codes "A05" }
    ensures evidence { code_text Code.EVIDENCE ≡ codes "A06" }
{}
