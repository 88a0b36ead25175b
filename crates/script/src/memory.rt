//! Bytes in hex, and the initial memory.
ghost use Rattle.std.specs.Prelude.{◌≡◌, ◌+◌, ◌≤◌, map, length, IfOk};
ghost use Rattle.serde_json.specs.View.{view};
ghost use Rattle.script.specs.Faults.{Gives, shaped};
ghost use Rattle.script.specs.Lists.{folded};
ghost use Rattle.script.specs.Memory.{bytes_of, placed, piece_words, piece_form, overwritten, piece_at, zeros};

use crate::fault::{Key, Path, ScriptFault};
use crate::keys::item_path;
use crate::number::{Whole, whole_of};
use hex::FromHexError;
use places::Items;
use serde_json::Value;
use std::alloc::{AllocError, Global};

const MEMORY_SIZE: usize = 65536;

/// Bytes at an address of memory, before their number and the address are checked.
#[derive(Drop)]
pub struct Piece {
    pub address: Whole,
    pub bytes: Items<u8>,
}

/// Decodes a text of hex digits.
pub fn read_bytes(alloc: Global, path: Path, value: &Value) -> Result<Items<u8>, ScriptFault>
    ensures { Gives (λ bytes. bytes) result (shaped path (bytes_of (view value.now))) }
{
    let Some(text) = value.as_str() else {
        return Err(ScriptFault::Shape(path));
    };
    match hex::decode(alloc, text) {
        Ok(bytes) => Ok(Items::from_vec(bytes)),
        Err(FromHexError::OutOfMemory) => Err(ScriptFault::Memory),
        Err(_) => Err(ScriptFault::Shape(path)),
    }
}

/// Returns the address if all of the bytes fit into the 65,536 bytes of memory.
pub fn placed(bytes: &Items<u8>, address: Whole) -> Option<u32>
    ensures { result ≡ placed bytes.now address }
{
    match address {
        Whole::Natural(n) => {
            if bytes.len() <= MEMORY_SIZE && n <= (MEMORY_SIZE - bytes.len()) as u64 {
                Some(n as u32)
            } else {
                None
            }
        }
        Whole::Negative(_) => None,
    }
}

fn piece_words(alloc: Global, path: Path, items: &[Value]) -> Result<Piece, ScriptFault>
    ensures { Gives (λ piece. piece) result (shaped path (piece_words (map view items.now))) }
{
    let [address, text] = items else {
        return Err(ScriptFault::Shape(path));
    };
    let Some(address) = whole_of(address) else {
        return Err(ScriptFault::Shape(path));
    };
    let bytes = read_bytes(alloc, path, text)?;
    Ok(Piece { address, bytes })
}

fn piece_form(alloc: Global, path: Path, value: &Value) -> Result<Piece, ScriptFault>
    ensures { Gives (λ piece. piece) result (shaped path (piece_form (view value.now))) }
{
    match value.as_array() {
        Some(items) => piece_words(alloc, path, items),
        None => Err(ScriptFault::Shape(path)),
    }
}

// Overwrites bytes with others, from index `at` on.
fn overwrite(bytes: &mut Vec<u8>, at: usize, others: &[u8])
    requires { at + length others.now ≤ length bytes.old.items }
    ensures next { bytes.new.items ≡ overwritten bytes.old.items at others.now }
    ensures len { length bytes.new.items ≡ length bytes.old.items }
{
    let end = at + others.len();
    bytes[at..end].copy_from_slice(others);
}

/// Writes the piece at an index of the list to memory.
pub fn write_piece(
    alloc: Global,
    memory: &mut Vec<u8>,
    index: usize,
    value: &Value,
) -> Result<(), ScriptFault>
    requires { length memory.old.items ≡ 65536 }
    ensures next { Gives (λ u. memory.new.items) result
        (piece_at memory.old.items index (view value.now)) }
    ensures len { length memory.new.items ≡ 65536 }
{
    // A script of at most 8,388,608 bytes has fewer items.
    let Ok(number) = u32::try_from(index) else {
        return Err(ScriptFault::Memory);
    };
    let path = item_path(Key::Memory, number);
    let piece = piece_form(alloc, path, value)?;
    if piece.bytes.len() > MEMORY_SIZE {
        return Err(ScriptFault::Limit(path));
    }
    let Some(address) = placed(&piece.bytes, piece.address) else {
        return Err(ScriptFault::Range(path));
    };
    overwrite(memory, address as usize, piece.bytes.as_slice());
    Ok(())
}

/// Returns `size` zero bytes.
#[tactic(auto, unfolding(crate::specs::Memory::zeros))]
pub fn make_zeros(alloc: Global, size: usize) -> Result<Vec<u8>, AllocError>
    ensures ok { IfOk result (λ v. v.items ≡ zeros size) }
    ensures len { IfOk result (λ v. length v.items ≡ size) }
{
    vec![in alloc; 0; size]
}

/// Returns the memory: zeros, over which the pieces are written in order.
pub fn read_pieces(alloc: Global, items: &[Value]) -> Result<Items<u8>, ScriptFault>
    ensures { Gives (λ memory. memory) result
        (folded piece_at (zeros 65536) 0 (map view items.now)) }
{
    let Ok(mut memory) = make_zeros(alloc, MEMORY_SIZE) else {
        return Err(ScriptFault::Memory);
    };
    for (i, item) in items.iter().enumerate() {
        write_piece(alloc, &mut memory, i, item)?;
    }
    Ok(Items::from_vec(memory))
}
