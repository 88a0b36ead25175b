//! Frames a body.
ghost use Rattle.std.specs.Prelude.{◌≡◌, ◌≢◌, ◌≤◌, ◌<◌, ◌++◌, ℕ, List, Some, length, IfOk, IfErr, string_bytes};
ghost use Rattle.dap_frames.specs.Decoding.{body_before, decode, frame, start};
ghost use Rattle.dap_frames.specs.Frames.{IsFrame, most_written};

use crate::fault::WriteFault;
use std::alloc::Global;

/// An answer may be longer than what it answers: it may name a path twice, or hold a whole source.
const MOST_WRITTEN_BYTES: usize = 16_777_216;

/// Returns the frame of a body. A body of more than 16,777,216 bytes is refused. One of at most
/// 1,048,576 bytes is decoded, whatever follows it.
pub fn frame_of(alloc: Global, body: &str) -> Result<String, WriteFault>
    ensures bytes { IfOk result (λ text. string_bytes text ≡ frame body.now) }
    ensures spelled { IfOk result (λ text. length body.now ≤ 1048576
        → IsFrame (string_bytes text) body.now) }
    ensures decodes { IfOk result (λ text. (more : List ℕ) → length body.now ≤ 1048576 →
        decode start (string_bytes text ++ more)
        ≡ body_before (Some body.now) (decode start more)) }
    ensures refused { IfErr result (λ fault.
        fault ≢ WriteFault.Memory → most_written < length body.now) }
{
    let length = body.len();
    if length > MOST_WRITTEN_BYTES {
        return Err(WriteFault::BodyTooLong);
    }
    Ok(format!(in alloc; "Content-Length: {length}\r\n\r\n{body}")?)
}
