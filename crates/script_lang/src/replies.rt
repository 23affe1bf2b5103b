//! The texts that answer lines. After want of memory the text is as before.

ghost use Rattle.std.specs.Prelude.{◌≡◌, ◌≤◌, ◌*◌, ◌++◌, ◌≢◌, OnOk, OnErr, decimal, drop, length, take};
ghost use Rattle.std.specs.List.{flat_map};
ghost use Rattle.script_lang.specs.Replies.{ok_text, doc_text, deleted_text, hits_text, near_text, line_fault_text};
ghost use Rattle.script_lang.specs.Replies.{refused_text, refusal_text, polygon_text, found_of};
ghost use Rattle.script_lang.specs.Replies.{text_line};

use crate::faults::{LineFault, Memory, Refusal};
use itoa::{Buffer, write_digits};
use point_codec::Near;
use polygon_query::GeoFault;

/// How many bytes of text are put together before they are appended.
const BLOCK: usize = 1024;

/// As many numbers as stand in a block, whatever they are: each has at most ten digits, and a byte 10 behind them.
const IN_BLOCK: usize = 93;

/// Appends `ok`, the answer to a command that gives nothing back.
#[tactic(auto, unfolding(crate::specs::Replies::ok_text))]
pub fn put_ok(out: &mut Vec<u8>) -> Result<(), Memory>
    ensures ok { OnOk result (out.new.items ≡ out.old.items ++ ok_text) }
    ensures memory { OnErr result (out.new.items ≡ out.old.items) }
{
    append(out, &[b"ok\n"])
}

/// Appends the number that a new document has.
#[tactic(auto, unfolding(crate::specs::Replies::doc_text))]
pub fn put_doc(out: &mut Vec<u8>, doc: u32) -> Result<(), Memory>
    ensures ok { OnOk result (out.new.items ≡ out.old.items ++ doc_text doc) }
    ensures memory { OnErr result (out.new.items ≡ out.old.items) }
{
    let mut digits = Buffer::new();
    append(out, &[b"doc ", digits.format(doc).as_bytes(), b"\n"])
}

/// Appends how many documents were deleted.
#[tactic(auto, unfolding(crate::specs::Replies::deleted_text))]
pub fn put_deleted(out: &mut Vec<u8>, n: u32) -> Result<(), Memory>
    ensures ok { OnOk result (out.new.items ≡ out.old.items ++ deleted_text n) }
    ensures memory { OnErr result (out.new.items ≡ out.old.items) }
{
    let mut digits = Buffer::new();
    append(out, &[b"deleted ", digits.format(n).as_bytes(), b"\n"])
}

/// Appends how many documents were found, and each one's number on a line of its own.
pub fn put_hits(out: &mut Vec<u8>, docs: &[u32]) -> Result<(), Memory>
    ensures ok { OnOk result (out.new.items ≡ out.old.items ++ hits_text docs.now) }
    ensures memory { OnErr result (out.new.items ≡ out.old.items) }
{
    let before = out.len();
    let done = append_hits(out, docs);
    if done.is_err() {
        out.truncate(before);
    }
    done
}

/// As `put_hits`, but what went before want of memory stays.
#[tactic(auto, unfolding(crate::specs::Replies::hits_text))]
fn append_hits(out: &mut Vec<u8>, docs: &[u32]) -> Result<(), Memory>
    ensures ok { OnOk result (out.new.items ≡ out.old.items ++ hits_text docs.now) }
    ensures memory { OnErr result (take (length out.old.items) out.new.items ≡ out.old.items) }
{
    let mut digits = Buffer::new();
    append(
        out,
        &[b"hits ", digits.format(docs.len()).as_bytes(), b"\n"],
    )?;
    let mut block = [0; BLOCK];
    let mut rest = docs;
    while !rest.is_empty() {
        let (front, behind) = rest.split_at(IN_BLOCK.min(rest.len()));
        let start = put_lines(&mut block, front);
        out.extend_from_slice(&block[start..])?;
        rest = behind;
    }
    Ok(())
}

/// Writes each number on a line of its own, so that the last line ends where the block does, and answers where the
/// first begins. Digits are written from the last to the first, and so are the numbers: none is moved.
fn put_lines(block: &mut [u8], docs: &[u32]) -> usize
    requires { 11 * length docs.now ≤ length block.old }
    ensures within { result ≤ length block.old }
    ensures lines { drop result block.new ≡ flat_map (λ doc. text_line (decimal doc)) docs.now }
{
    let mut at = block.len();
    for i in (0..docs.len()).rev() {
        block[at - 1] = b'\n';
        at = write_digits(u64::from(docs[i]), block, at - 1);
    }
    at
}

/// Appends how many documents were found, and each one's number and squared distance on a line of its own.
pub fn put_near(out: &mut Vec<u8>, near: &[Near]) -> Result<(), Memory>
    ensures ok { OnOk result (out.new.items ≡ out.old.items ++ near_text (found_of near.now)) }
    ensures memory { OnErr result (out.new.items ≡ out.old.items) }
{
    let before = out.len();
    let done = append_near(out, near);
    if done.is_err() {
        out.truncate(before);
    }
    done
}

/// As `put_near`, but what went before want of memory stays.
#[tactic(auto, unfolding(crate::specs::Replies::near_text))]
fn append_near(out: &mut Vec<u8>, near: &[Near]) -> Result<(), Memory>
    ensures ok { OnOk result (out.new.items ≡ out.old.items ++ near_text (found_of near.now)) }
    ensures memory { OnErr result (take (length out.old.items) out.new.items ≡ out.old.items) }
{
    let mut doc = Buffer::new();
    let mut dist2 = Buffer::new();
    append(out, &[b"near ", doc.format(near.len()).as_bytes(), b"\n"])?;
    for found in near {
        append(
            out,
            &[
                doc.format(found.doc).as_bytes(),
                b" ",
                dist2.format(found.dist2).as_bytes(),
                b"\n",
            ],
        )?;
    }
    Ok(())
}

/// Appends why a line cannot be read.
#[tactic(auto, unfolding(crate::specs::Replies::line_fault_text))]
pub fn put_line_fault(out: &mut Vec<u8>, line: u64, f: &LineFault) -> Result<(), Memory>
    requires { f.now ≢ LineFault.Memory }
    ensures ok { OnOk result (out.new.items ≡ out.old.items ++ line_fault_text line f.now) }
    ensures memory { OnErr result (out.new.items ≡ out.old.items) }
{
    let mut digits = Buffer::new();
    match f {
        LineFault::TooLong => refuse(out, line, &[b"too long"]),
        LineFault::NotUtf8 => refuse(out, line, &[b"not utf-8"]),
        LineFault::NoIndex => refuse(out, line, &[b"no index"]),
        LineFault::Unknown => refuse(out, line, &[b"unknown command"]),
        LineFault::BadName => refuse(out, line, &[b"bad name"]),
        LineFault::NotTwo => refuse(out, line, &[b"not two dimensions"]),
        LineFault::Words => refuse(out, line, &[b"wrong words"]),
        LineFault::Number { word } => {
            let word = digits.format(*word).as_bytes();
            refuse(out, line, &[b"bad number in word ", word])
        }
        LineFault::Dims => refuse(out, line, &[b"dims"]),
        LineFault::LeafSize => refuse(out, line, &[b"leaf size"]),
        LineFault::BadK => refuse(out, line, &[b"bad k"]),
        LineFault::Geo(fault) => put_polygon_fault(out, line, *fault),
        LineFault::Memory => unreachable!(),
    }
}

fn put_polygon_fault(out: &mut Vec<u8>, line: u64, f: GeoFault) -> Result<(), Memory>
    ensures ok { OnOk result (out.new.items ≡ out.old.items ++ refusal_text line (polygon_text f)) }
    ensures memory { OnErr result (out.new.items ≡ out.old.items) }
{
    let mut first = Buffer::new();
    let mut second = Buffer::new();
    match f {
        GeoFault::NotJson => refuse(out, line, &[b"polygon is not json"]),
        GeoFault::NotPolygon => refuse(out, line, &[b"not a polygon"]),
        GeoFault::TooMany => refuse(out, line, &[b"polygon has too many positions"]),
        GeoFault::NotWhole { ring, position } => {
            let ring = first.format(ring).as_bytes();
            let position = second.format(position).as_bytes();
            refuse(
                out,
                line,
                &[
                    b"polygon ring ",
                    ring,
                    b" position ",
                    position,
                    b" is not whole",
                ],
            )
        }
        GeoFault::TooFew { ring } => {
            let ring = first.format(ring).as_bytes();
            refuse(
                out,
                line,
                &[b"polygon ring ", ring, b" has too few positions"],
            )
        }
        GeoFault::NotClosed { ring } => {
            let ring = first.format(ring).as_bytes();
            refuse(out, line, &[b"polygon ring ", ring, b" is not closed"])
        }
    }
}

/// Appends why a line that can be read is refused.
#[tactic(auto, unfolding(crate::specs::Replies::refused_text))]
pub fn put_refusal(out: &mut Vec<u8>, line: u64, w: Refusal) -> Result<(), Memory>
    ensures ok { OnOk result (out.new.items ≡ out.old.items ++ refused_text line w) }
    ensures memory { OnErr result (out.new.items ≡ out.old.items) }
{
    let cause: &[u8] = match w {
        Refusal::Exists => b"index exists",
        Refusal::Full => b"full",
        Refusal::Begun => b"merge begun",
        Refusal::NotBegun => b"no merge begun",
        Refusal::UnknownSnapshot => b"unknown snapshot",
        Refusal::NameTaken => b"name taken",
        Refusal::TooManySnapshots => b"too many snapshots",
        Refusal::NotQuery => b"not a query",
    };
    refuse(out, line, &[cause])
}

/// Appends a line's number and why it is refused, told in pieces.
pub fn refuse(out: &mut Vec<u8>, line: u64, cause: &[&[u8]]) -> Result<(), Memory>
    ensures ok { OnOk result
        (out.new.items ≡ out.old.items ++ refusal_text line (flat_map (λ piece. piece.now) cause.now)) }
    ensures memory { OnErr result (out.new.items ≡ out.old.items) }
{
    let before = out.len();
    let done = append_refusal(out, line, cause);
    if done.is_err() {
        out.truncate(before);
    }
    done
}

/// As `refuse`, but what went before want of memory stays.
fn append_refusal(out: &mut Vec<u8>, line: u64, cause: &[&[u8]]) -> Result<(), Memory>
    ensures ok { OnOk result
        (out.new.items ≡ out.old.items ++ refusal_text line (flat_map (λ piece. piece.now) cause.now)) }
    ensures memory { OnErr result (take (length out.old.items) out.new.items ≡ out.old.items) }
{
    let mut digits = Buffer::new();
    append(out, &[b"line ", digits.format(line).as_bytes(), b": "])?;
    append(out, cause)?;
    append(out, &[b"\n"])
}

/// Appends these pieces, one after the other.
fn append(out: &mut Vec<u8>, pieces: &[&[u8]]) -> Result<(), Memory>
    ensures ok { OnOk result (out.new.items ≡ out.old.items ++ flat_map (λ piece. piece.now) pieces.now) }
    ensures memory { OnErr result (out.new.items ≡ out.old.items) }
{
    let before = out.len();
    for piece in pieces {
        if let Err(memory) = out.extend_from_slice(piece) {
            out.truncate(before);
            return Err(memory);
        }
    }
    Ok(())
}
