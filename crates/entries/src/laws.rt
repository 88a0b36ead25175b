//! Laws of the byte layouts: encoding and decoding are inverse to each other. A function with an
//! empty body states a law about the definitions alone.
ghost use Rattle.std.specs.Prelude.{◌≡◌, ◌↔◌, ℕ, List, length};
ghost use Rattle.entries.specs.declared.completion.Cqe.{Cqe};
ghost use Rattle.entries.specs.declared.entry.Sqe.{Sqe};
ghost use Rattle.entries.specs.Layout.{EntryFits, EntryLayout, CompletionFits, CompletionLayout, completion_bytes, entry_bytes, entry_of_bytes};

use crate::completion::Cqe;
use crate::entry::Sqe;

/// An entry has one encoding.
pub fn one_list_of_an_entry()
    ensures { (e : Sqe) (a b : List ℕ) → EntryLayout e a → EntryLayout e b → a ≡ b }
{}

/// Bytes encode one entry.
pub fn one_entry_of_a_list()
    ensures { (d e : Sqe) (bytes : List ℕ) → EntryFits d → EntryFits e → EntryLayout d bytes
        → EntryLayout e bytes → d ≡ e }
{}

/// The entry that some bytes encode is the one that `entry_of_bytes` reads from them.
pub fn entry_made_of_a_list()
    ensures { (e : Sqe) (bytes : List ℕ) → EntryFits e → EntryLayout e bytes
        → e ≡ entry_of_bytes bytes }
{}

/// A completion has one encoding.
pub fn one_list_of_a_completion()
    ensures { (c : Cqe) (a b : List ℕ) → CompletionLayout c a → CompletionLayout c b → a ≡ b }
{}

/// Bytes encode one completion.
pub fn one_completion_of_a_list()
    ensures { (c d : Cqe) (bytes : List ℕ) → CompletionFits c → CompletionFits d
        → CompletionLayout c bytes → CompletionLayout d bytes → c ≡ d }
{}

/// The encoding of an entry is its fields in order, as `entry_bytes` lists them.
pub fn entry_spelled()
    ensures { (e : Sqe) (bytes : List ℕ) → length e.rest ≡ 16
        → (EntryLayout e bytes ↔ (bytes ≡ entry_bytes e)) }
{}

/// The encoding of a completion is its fields in order, as `completion_bytes` lists them.
pub fn completion_spelled()
    ensures { (c : Cqe) (bytes : List ℕ)
        → (CompletionLayout c bytes ↔ (bytes ≡ completion_bytes c)) }
{}

/// Encoding an entry and decoding the bytes returns the same entry.
pub fn entry_again(entry: Sqe) -> Sqe
    ensures { result ≡ entry }
{
    Sqe::read(&entry.write())
}

/// Decoding an entry and encoding it returns the same bytes.
pub fn entry_bytes_again(bytes: &[u8; 64]) -> [u8; 64]
    ensures { result ≡ bytes.now }
{
    Sqe::read(bytes).write()
}

/// Encoding a completion and decoding the bytes returns the same completion.
pub fn completion_again(completion: Cqe) -> Cqe
    ensures { result ≡ completion }
{
    Cqe::read(&completion.write())
}

/// Decoding a completion and encoding it returns the same bytes.
pub fn completion_bytes_again(bytes: &[u8; 16]) -> [u8; 16]
    ensures { result ≡ bytes.now }
{
    Cqe::read(bytes).write()
}
