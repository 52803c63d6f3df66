//! What is written is read again, and what is read was written so: a text has one reading, and a word has one spelling.
ghost use Rattle.std.specs.Prelude.{◌≡◌, ◌++◌, ◌^◌, ◌<◌, ◌≤◌, ℕ, List, Some, IsFalse, IsTrue};
ghost use Rattle.std.specs.Str.{all_scalars};
ghost use Rattle.psm_exprcode.specs.declared.op.Letter.{Letter};
ghost use Rattle.psm_value.specs.declared.datum.Datum.{Datum};
ghost use Rattle.psm_value.specs.declared.sqltype.SqlType.{SqlType};
ghost use Rattle.psm_words.specs.Words.{datum_word, number, quoted, stack_word, state_word, type_word, FitsType, IsDatum, IsStateWord};
ghost use Rattle.psm_words.specs.Reading.{begins_with_digit, datum_at, ends_datum, ends_stack, number_at, quoted_at, stack_at, state_at, type_at};

/// A number is read again where no digit follows it, and a number that is read is written so.
pub fn numbers_have_one_spelling()
    ensures again { (most n : ℕ) (rest : List ℕ) → most < 10 ^ 18 → n ≤ most → IsFalse (begins_with_digit rest) → number_at most (number n ++ rest) ≡ Some (n, rest) }
    ensures takes { (most n : ℕ) (s rest : List ℕ) → most < 10 ^ 18 → number_at most s ≡ Some (n, rest) → (s ≡ number n ++ rest) × (n ≤ most) × IsFalse (begins_with_digit rest) }
{}

/// A quoted text is read again whatever follows it, and a text that is read is written so. The characters are those of
/// UTF-8.
pub fn quoted_texts_have_one_spelling()
    ensures again { (t rest : List ℕ) → IsTrue (all_scalars t) → quoted_at (quoted t ++ rest) ≡ Some (t, rest) }
    ensures takes { (s t rest : List ℕ) → quoted_at s ≡ Some (t, rest) → (s ≡ quoted t ++ rest) × IsTrue (all_scalars t) }
{}

/// A value is read again where what follows isn't a part of its word: a digit is one of a number, and so is a point of a
/// number without decimals. A value that is read is written so.
pub fn data_have_one_spelling()
    ensures again { (d : Datum) (rest : List ℕ) → IsDatum d → IsTrue (ends_datum d rest) → datum_at (datum_word d ++ rest) ≡ Some (d, rest) }
    ensures takes { (s : List ℕ) (d : Datum) (rest : List ℕ) → datum_at s ≡ Some (d, rest) → (s ≡ datum_word d ++ rest) × IsDatum d × IsTrue (ends_datum d rest) }
{}

/// A type is read again whatever follows it, and a type that is read is written so.
pub fn types_have_one_spelling()
    ensures again { (kind : SqlType) (rest : List ℕ) → FitsType kind → type_at (type_word kind ++ rest) ≡ Some (kind, rest) }
    ensures takes { (s : List ℕ) (kind : SqlType) (rest : List ℕ) → type_at s ≡ Some (kind, rest) → (s ≡ type_word kind ++ rest) × FitsType kind }
{}

/// A stack is read again where no letter follows its letters, and a stack that is read is written so.
pub fn stacks_have_one_spelling()
    ensures again { (letters : List Letter) (rest : List ℕ) → IsTrue (ends_stack letters rest) → stack_at (stack_word letters ++ rest) ≡ Some (letters, rest) }
    ensures takes { (s : List ℕ) (letters : List Letter) (rest : List ℕ) → stack_at s ≡ Some (letters, rest) → (s ≡ stack_word letters ++ rest) × IsTrue (ends_stack letters rest) }
{}

/// A state is read again whatever follows it, and a state that is read is written so.
pub fn states_have_one_spelling()
    ensures again { (t rest : List ℕ) → IsStateWord t → state_at (state_word t ++ rest) ≡ Some (t, rest) }
    ensures takes { (s t rest : List ℕ) → state_at s ≡ Some (t, rest) → (s ≡ state_word t ++ rest) × IsStateWord t }
{}
