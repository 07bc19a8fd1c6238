// Laws of the definitions that no call's contract says.
ghost use Rattle.std.specs.Prelude.{◌≡◌, ℕ, List, Result, Ok};
ghost use Rattle.il_text.specs.Tokens.{AreTokens};
ghost use Rattle.il_text.specs.declared.token.Token.{Token};
ghost use Rattle.il_model.specs.Lexemes.{lexemes_of};
ghost use Rattle.il_model.specs.Accepted.{IsOfText, IsProgramText, IsWritten};
ghost use Rattle.il_model.specs.Canonical.{canonical_text};
ghost use Rattle.il_model.specs.LookUp.{NamesProgram};
ghost use Rattle.il_model.specs.declared.program.Program.{Program};
ghost use Rattle.il_model.specs.declared.written.WrittenClass.{WrittenClass};
ghost use Rattle.il_parse.specs.Accepted.{IsAccepted, Says};
ghost use Rattle.il_parse.specs.Answer.{IsAnswer, Parses};
ghost use Rattle.il_parse.specs.Classes.{read_program};
ghost use Rattle.il_parse.specs.NamedClasses.{program_named};
ghost use Rattle.il_parse.specs.declared.answer.Parsed.{Parsed};
ghost use Rattle.il_parse.specs.declared.fault.ParseFault.{ParseFault};

/// The classes that are read of a text's tokens are those that the text spells by the model's relation,
/// and a text spells one list of classes at most. A law alone: it does nothing.
pub fn written_texts_are_read()
    ensures spelled { (text : List ℕ) (tokens : List Token) → AreTokens text tokens → (classes : List WrittenClass)
        → read_program (lexemes_of text tokens) ≡ Ok classes → IsWritten text classes }
    ensures found { (text : List ℕ) (tokens : List Token) → AreTokens text tokens → (classes : List WrittenClass)
        → IsWritten text classes → read_program (lexemes_of text tokens) ≡ Ok classes }
    ensures one { (text : List ℕ) (some others : List WrittenClass) → IsWritten text some → IsWritten text others → some ≡ others }
{}

/// The look-up of names finds just the program that the model's relation names: what it finds for the
/// classes of a text is named, what is named is found, and classes have one program at most. A law
/// alone: it does nothing.
pub fn names_give_one_program()
    ensures found { (text : List ℕ) (classes : List WrittenClass) (p : Program) → IsWritten text classes → program_named classes ≡ Ok p → NamesProgram classes p }
    ensures named { (classes : List WrittenClass) (p : Program) → NamesProgram classes p → program_named classes ≡ Ok p }
    ensures one { (classes : List WrittenClass) (p q : Program) → NamesProgram classes p → NamesProgram classes q → p ≡ q }
{}

/// A text gives one answer at most. It gives a program with its places exactly where it is accepted as
/// that program by the model's relations, and a refusal only where it is accepted as none; a text is one
/// program at most. A law alone: it does nothing.
pub fn texts_give_one_answer()
    ensures one { (text : List ℕ) (r q : Result Parsed ParseFault) → Parses text r → Parses text q → r ≡ q }
    ensures says { (text : List ℕ) (r : Result Parsed ParseFault) → Parses text r → Says text r }
    ensures given { (text : List ℕ) (a : Parsed) → IsAccepted text a → Parses text (Ok a) }
    ensures program { (text : List ℕ) (some others : List WrittenClass) (p q : Program) → IsProgramText text some p → IsProgramText text others q → p ≡ q }
{}

/// Parsing undoes printing, and printing what was parsed gives the text that was printed before: the
/// canonical text of a program that some text gives, which has at most 4,194,304 bytes, gives just that
/// program, with the places that its definitions have there; and what it gives prints as the same bytes. A
/// law alone: it does nothing.
pub fn canonical_texts_give_their_programs()
    ensures program { (p : Program) → IsOfText p → (a : Parsed) × IsAnswer (canonical_text p) (Ok a) × (a.program ≡ p) }
    ensures bytes { (p : Program) (a : Parsed) → IsOfText p → IsAnswer (canonical_text p) (Ok a) → canonical_text a.program ≡ canonical_text p }
{}
