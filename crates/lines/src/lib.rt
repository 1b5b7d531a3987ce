// Where a record stands in a line, and what is kept of an input whose line has not ended.
#![tactic(auto)]

ghost use Rattle.std.specs.Prelude.{◌≡◌, ◌-◌, ◌≤◌, ◌<◌, leb, length, take, drop, MatchOption};
ghost use Rattle.std.proofs.lemmas.List.Edits.{sets};
ghost use Rattle.record.specs.Input.{strip, begun};

// The record of a line: from index `from` up to `to`, and whether it has at most 128 bytes.
#[derive(Clone, Copy)]
pub struct Line {
    pub from: usize,
    pub to: usize,
    // Kept: a flag and no `Option`, since a record that is too long has its place too.
    pub fits: bool,
}

// What an input says from here on: without the mark, where this is the very start.
pub fn unmarked<'a>(s: &'a [u8], start: bool) -> &'a [u8]
    ensures { result.now ≡ begun start s.now }
{
    if !start {
        return s;
    }
    s.strip_prefix(b"\xef\xbb\xbf").unwrap_or(s)
}

// What stands before the carriage return of a line end.
fn stripped<'a>(s: &'a [u8]) -> &'a [u8]
    ensures { result.now ≡ strip s.now }
{
    match s {
        [record @ .., b'\r'] => record,
        _ => s,
    }
}

// Where the record of a line stands, which is given without its line feed.
pub fn line_of(s: &[u8], start: bool) -> Line
    ensures { (result.from ≤ result.to) × (result.to ≤ length s.now) × (result.fits ≡ leb (length (strip (begun start s.now))) 128) × (take (result.to - result.from) (drop result.from s.now) ≡ strip (begun start s.now)) × (drop result.from s.now ≡ begun start s.now) }
{
    let left = unmarked(s, start);
    let record = stripped(left);
    let from = s.len() - left.len();
    Line {
        from,
        to: from + record.len(),
        fits: record.len() <= 128,
    }
}

// The record of a line, which is given without its line feed, if it has at most 128 bytes.
pub fn record_of<'a>(s: &'a [u8], start: bool) -> Option<&'a [u8]>
    ensures { MatchOption result (128 < length (strip (begun start s.now))) (λ r. (r.now ≡ strip (begun start s.now)) × (length r.now ≤ 128)) }
{
    let line = line_of(s, start);
    if line.fits {
        Some(&s[line.from..line.to])
    } else {
        None
    }
}

// Moves the bytes from index `from` up to n, as far as there are any, to the front, 133 of them at most: the mark, 128, a carriage return and one more, which
// is enough of a line that has not ended. Returns how many.
pub fn keep(buf: &mut [u8], from: usize, n: usize) -> usize
    ensures buf_after { buf.new ≡ sets buf.old 0 (take 133 (take (n - from) (drop from buf.old))) }
    ensures value { result ≡ length (take 133 (take (n - from) (drop from buf.old))) }
{
    let end = n.min(buf.len());
    if end < from {
        return 0;
    }
    let many = (end - from).min(133);
    buf.copy_within(from..from + many, 0);
    many
}
