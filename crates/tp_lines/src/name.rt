//! The names of servers, workers and clients.
ghost use Rattle.std.specs.Prelude.{◌≡◌, IsTrue, Some, nat_eq, refl};
ghost use Rattle.std.specs.List.{list_all};
ghost use Rattle.std.specs.Ordering.{nat_cmp};
ghost use Rattle.std.specs.Cmp.{on_equiv, on_total, on_po, on_per, partial_equiv_from_equiv};
ghost use Rattle.std.specs.Cmp.Lexicographic.{pointwise, slice_cmp, nat_list_eq_equiv, nat_list_cmp_total};
ghost use Rattle.std.specs.Cmp.Lexicographic.{texts_po, texts_ties};
ghost use Rattle.tp_lines.specs.Names.{begins_with_letter, is_in_name, is_letter, is_name, name_cmp, name_of};

use arrayvec::ArrayVec;
use std::cmp::Ordering;
use std::marker::Model;
use std::str;

/// How many letters a name has at most.
pub const MAX_NAME: usize = 32;

/// The name of a server, a worker or a client: 1 to 32 of `0-9 A-Z a-z . _ -`, the first one a letter.
#[derive(Drop)]
pub struct Name {
    letters: ArrayVec<u8, MAX_NAME>,
}

impl Model for Name {
    ghost use Rattle.std.specs.Prelude.{IsTrue};
    ghost use Rattle.tp_lines.specs.Names.{NameView, is_name};

    ghost Value = { NameView };

    ghost view = { λ n. record { letters = n.letters.items } };

    ghost invariant = { λ n. IsTrue (is_name n.letters.items) };

    ghost inverse = { λ n. record { letters = record { items = n.letters } } };
}

// Whether a byte is a letter.
fn is_letter(byte: u8) -> bool
    ensures { result ≡ is_letter byte }
{
    (byte >= b'A' && byte <= b'Z') || (byte >= b'a' && byte <= b'z')
}

// Whether a byte may stand in a name.
fn is_in_name(byte: u8) -> bool
    ensures { result ≡ is_in_name byte }
{
    is_letter(byte)
        || (byte >= b'0' && byte <= b'9')
        || byte == b'.'
        || byte == b'_'
        || byte == b'-'
}

// Whether the first byte is a letter.
fn begins_with_letter(word: &[u8]) -> bool
    ensures { result ≡ begins_with_letter word.now }
{
    match word {
        [] => false,
        [first, ..] => is_letter(*first),
    }
}

/// Whether all bytes may stand in a name.
pub(crate) fn all_in_name(word: &[u8]) -> bool
    ensures { result ≡ list_all is_in_name word.now }
{
    word.iter().all(|byte| is_in_name(*byte))
}

// Whether a word is a name.
fn is_name(word: &[u8]) -> bool
    ensures { result ≡ is_name word.now }
{
    begins_with_letter(word) && word.len() <= MAX_NAME && all_in_name(word)
}

impl Name {
    /// The name that a word is, or `None` where it isn't one.
    pub fn of(word: &[u8]) -> Option<Name>
        ensures { result ≡ name_of word.now }
    {
        if is_name(word) {
            Some(Name::taken(word))
        } else {
            None
        }
    }

    // The name that a word is.
    fn taken(word: &[u8]) -> Name
        requires { IsTrue (is_name word.now) }
        ensures { result.letters ≡ word.now }
    {
        match ArrayVec::try_from(word) {
            Ok(letters) => Name { letters },
            Err(_) => unreachable!(),
        }
    }

    /// Its letters.
    pub fn as_str(&self) -> &str
        ensures { result.now ≡ self.now.letters }
    {
        name_text(self.letters.as_slice())
    }

    /// The same name once more.
    pub fn copy(&self) -> Name
        ensures { result ≡ self.now }
    {
        Name::taken(self.letters.as_slice())
    }
}

// A name as text.
fn name_text(name: &[u8]) -> &str
    requires { IsTrue (is_name name.now) }
    ensures { result.now ≡ name.now }
{
    str::from_utf8(name).unwrap()
}

impl PartialEq for Name {
    ghost eq = { λ a b. pointwise nat_eq a.letters b.letters };

    ghost laws = { on_per (λ n. n.letters) (partial_equiv_from_equiv nat_list_eq_equiv) };

    fn eq(&self, other: &Self) -> bool {
        self.letters.as_slice() == other.letters.as_slice()
    }
}

impl Eq for Name {
    ghost laws = { on_equiv (λ n. n.letters) nat_list_eq_equiv };
}

impl PartialOrd for Name {
    ghost partial_cmp = { λ a b. Some (name_cmp a b) };

    ghost laws = { on_po (λ n. n.letters) texts_po };

    fn partial_cmp(&self, other: &Self) -> Option<Ordering> {
        Some(self.cmp(other))
    }
}

/// Names are in the order of their letters.
impl Ord for Name {
    ghost cmp = { name_cmp };

    ghost total = { on_total (λ n. n.letters) nat_list_cmp_total };

    ghost matches_partial_cmp = { λ a b. refl };

    ghost matches_eq = { λ a b. texts_ties a.letters b.letters };

    fn cmp(&self, other: &Self) -> Ordering {
        self.letters.as_slice().cmp(other.letters.as_slice())
    }
}
