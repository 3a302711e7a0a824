//! The bytes of open files, and paths in them.
ghost use Rattle.std.specs.Prelude.{◌≡◌, ◌++◌, ◌-◌, IfOk, codes, drop, encode_utf8_all, take};
ghost use Rattle.lp_lexer.specs.Source.{joins};
ghost use Rattle.lp_preproc.specs.Directives.{beside, between, is_directly_behind, unjoined};
ghost use Rattle.lp_preproc.specs.Uses.{folder, folder_end};

use crate::row::Row;
use lp_tree::token::Token;
use std::alloc::{AllocError, Global};

// The bytes from a place on.
fn behind(bytes: &[u8], from: usize) -> &[u8]
    ensures { result.now ≡ drop from bytes.now }
{
    let first = from.min(bytes.len());
    &bytes[first..]
}

// So many bytes at the front.
fn front(bytes: &[u8], count: usize) -> &[u8]
    ensures { result.now ≡ take count bytes.now }
{
    let end = count.min(bytes.len());
    &bytes[..end]
}

// Whether two bytes join two lines.
fn joins(c: u8, d: u8) -> bool
    ensures { result ≡ joins c d }
{
    c == 92 && d == 10
}

// Bytes without those that join two lines.
fn unjoined(alloc: Global, bytes: &[u8]) -> Result<Vec<u8>, AllocError>
    ensures { IfOk result (λ v. v.items ≡ unjoined bytes.now) }
{
    let mut all = Vec::new(alloc);
    let mut i = 0;
    'bytes: while i < bytes.len() {
        if i + 1 < bytes.len() && joins(bytes[i], bytes[i + 1]) {
            i += 2;
        } else {
            all.push(bytes[i])?;
            i += 1;
        }
    }
    Ok(all)
}

/// The bytes between two tokens, without those that join two lines.
pub fn between(alloc: Global, bytes: &[u8], t: &Token, u: &Token) -> Result<Vec<u8>, AllocError>
    ensures { IfOk result (λ v. v.items ≡ between bytes.now t.now u.now) }
{
    let from = t.at as usize + t.len as usize;
    let count = (u.at as usize).saturating_sub(from);
    unjoined(alloc, front(behind(bytes, from), count))
}

/// Whether nothing stands between two tokens, but where two lines are joined.
pub fn is_directly_behind(
    alloc: Global,
    bytes: &[u8],
    t: &Token,
    u: &Token,
) -> Result<bool, AllocError>
    ensures { IfOk result (λ b. b ≡ is_directly_behind bytes.now t.now u.now) }
{
    let gap = between(alloc, bytes, t, u)?;
    Ok(gap.len() == 0)
}

// Where the folder of a path ends.
fn folder_end(path: &[u8]) -> usize
    ensures { result ≡ folder_end 0 0 path.now }
{
    let mut end = 0;
    'path: for i in 0..path.len() {
        if path[i] == 47 {
            end = i + 1;
        }
    }
    end
}

/// The folder of a path.
pub fn folder(path: &[u8]) -> &[u8]
    ensures { result.now ≡ folder path.now }
{
    front(path, folder_end(path))
}

// Where the folder of a path ends, by its code points.
fn text_folder_end(path: &[char]) -> usize
    ensures { result ≡ folder_end 0 0 path.now }
{
    let mut end = 0;
    'path: for i in 0..path.len() {
        if path[i] == '/' {
            end = i + 1;
        }
    }
    end
}

/// The folder of a path, by its code points.
pub fn text_folder(path: &[char]) -> &[char]
    ensures { result.now ≡ folder path.now }
{
    let end = text_folder_end(path).min(path.len());
    &path[..end]
}

/// The bytes of a text.
pub fn encoded(alloc: Global, text: &[char]) -> Result<Vec<u8>, AllocError>
    ensures { IfOk result (λ v. v.items ≡ encode_utf8_all text.now) }
{
    let text: String = text.iter().copied().collect(alloc)?;
    Vec::from_slice(alloc, text.as_bytes())
}

// One list of bytes behind another.
fn joined(alloc: Global, front: &[u8], rest: &[u8]) -> Result<Row<u8>, AllocError>
    ensures { IfOk result (λ r. r ≡ front.now ++ rest.now) }
{
    let mut all = Vec::from_slice(alloc, front)?;
    all.extend_from_slice(rest)?;
    Ok(Row::from_vec(all))
}

/// A path as it is where it begins with `/`, and else in a folder.
pub fn beside(alloc: Global, folder: &[u8], path: &[u8]) -> Result<Row<u8>, AllocError>
    ensures { IfOk result (λ r. r ≡ beside folder.now path.now) }
{
    match path {
        [] => joined(alloc, folder, path),
        [47, ..] => joined(alloc, b"", path),
        _ => joined(alloc, folder, path),
    }
}

/// A path in `/sys/`.
pub fn in_sys(alloc: Global, path: &[u8]) -> Result<Row<u8>, AllocError>
    ensures { IfOk result (λ r. r ≡ codes "/sys/" ++ path.now) }
{
    joined(alloc, b"/sys/", path)
}
