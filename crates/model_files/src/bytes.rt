//! Copying ranges of bytes.
ghost use Rattle.std.specs.Prelude.{◌≡◌, ◌+◌, ◌-◌, ◌≤◌, ◌++◌, length, map, Some, IfOk};
ghost use Rattle.places.specs.Masked.{PutOver};
ghost use Rattle.places.specs.Stretched.{kept_of, CanCount};
ghost use Rattle.model_files.specs.Files.{overwritten, padded, zeros};

use places::Stretch;
use shared_pages::Page;
use std::alloc::{AllocError, Global};

/// The maximum size of a file, in bytes, and the size of the memory.
pub const MOST_BYTES: usize = 65536;

/// Overwrites bytes from index `at` on.
pub fn overwrite(bytes: &mut Page<u8>, at: usize, others: &[u8])
    requires { at + length others.now ≤ length bytes.old }
    ensures next { bytes.new ≡ overwritten bytes.old at others.now }
    ensures len { length bytes.new ≡ length bytes.old }
{
    bytes.overwrite(at, others);
}

/// Restores the recorded bytes of a stretch, as far as `bytes` reaches.
pub fn put_over(bytes: &mut Page<u8>, stretch: &Stretch<'_>)
    requires { CanCount stretch.now }
    ensures over { PutOver bytes.old stretch.now.start (kept_of stretch.now) bytes.new }
    ensures len { length bytes.new ≡ length bytes.old }
{
    if stretch.gone.is_empty() {
        put_all_over(bytes, stretch.start as usize, stretch.olds);
    } else {
        put_kept_over(bytes, stretch);
    }
}

fn put_all_over(bytes: &mut Page<u8>, start: usize, olds: &[u8])
    ensures over { PutOver bytes.old start (map Some olds.now) bytes.new }
    ensures len { length bytes.new ≡ length bytes.old }
{
    let from = start.min(bytes.len());
    let n = olds.len().min(bytes.len() - from);
    overwrite(bytes, from, &olds[..n]);
}

fn put_kept_over(bytes: &mut Page<u8>, stretch: &Stretch<'_>)
    requires { CanCount stretch.now }
    ensures over { PutOver bytes.old stretch.now.start (kept_of stretch.now) bytes.new }
    ensures len { length bytes.new ≡ length bytes.old }
{
    let from = (stretch.start as usize).min(bytes.len());
    let most = bytes.len() - from;
    let n = stretch.olds.len().min(most);
    for i in 0..n {
        let at = from + i;
        bytes.set(at, stretch.kept(i).unwrap_or(bytes.as_slice()[at]));
    }
}

/// Returns the bytes, padded with zeros to the maximum size.
pub fn pad(alloc: Global, bytes: &[u8]) -> Result<Page<u8>, AllocError>
    requires { length bytes.now ≤ 65536 }
    ensures ok { IfOk result (λ all. all ≡ padded bytes.now) }
    ensures len { IfOk result (λ all. length all ≡ 65536) }
{
    Ok(Page::new(fill_up(alloc, bytes, MOST_BYTES)?))
}

fn fill_up(alloc: Global, bytes: &[u8], size: usize) -> Result<Vec<u8>, AllocError>
    requires { length bytes.now ≤ size }
    ensures ok { IfOk result (λ all. all.items ≡ bytes.now ++ zeros (size - length bytes.now)) }
    ensures len { IfOk result (λ all. length all.items ≡ size) }
{
    let mut all = Vec::from_slice(alloc, bytes)?;
    all.resize(size, 0)?;
    Ok(all)
}
