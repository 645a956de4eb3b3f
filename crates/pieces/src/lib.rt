// For measuring alone (`tools/bench --pieces`), and not delivered: the pieces that the services are made of, under C names. Each function does one piece's work
// over a whole input, so that a call is long enough to be timed, and promises what it gives (specs/Given). A part of the bytes is what stands from one of the
// starts to the next.
#![tactic(auto)]

ghost use Rattle.std.specs.Prelude.{◌≡◌};
ghost use Rattle.output.specs.Put.{Puts};
ghost use Rattle.line_table.specs.Table.{Sound, line_in};
ghost use Rattle.from_card_garbled.specs.Garbled.{FirstGarbled};
ghost use Rattle.pieces.specs.Given.{known_params, passed, parsed_lines, length_read, folded_line, written, written_parts, PutsParts, UnfoldsCard};

use card_table::{params, types};
use from_card_garbled::first_garbled;
use json_compact::put_compact;
use json_limits::DEPTH;
use json_read::read;
use json_strings::decode_into;
use json_write::{put_requoted, put_string};
use line_frame::frame_of;
use line_limits::LINES;
use line_pen::{fill as fill_bytes, pen_bytes};
use line_table::{fill, table};
use line_text::read_text;
use line_unfold::{line_at, unfold};
use output::Full;
use table_params::{mark_rows, scan_rows};

// Where each line begins, and where the last ends.
const STARTS: usize = LINES + 1;

// The lines between BEGIN and END, unfolded: how many. 0 too where the bytes are not one card, or the lent parts are too short for any card of that length.
#[unsafe(no_mangle)]
pub extern "C" fn pieces_unfold(out: &mut [u8], starts: &mut [usize], card: &[u8]) -> usize
    ensures { UnfoldsCard out.old starts.old card.now result out.new starts.new }
{
    if starts.len() < STARTS {
        return 0;
    }
    if out.len() < card.len() {
        return 0;
    }
    let Some(body) = frame_of(card) else {
        return 0;
    };
    let Ok(n) = unfold(out, starts, LINES, &card[body.start..body.end]) else {
        return 0;
    };
    n
}

// The first line that is not UTF-8 or has a control; 0 where there is none.
#[unsafe(no_mangle)]
pub extern "C" fn pieces_garbled(bytes: &[u8], starts: &[usize], n: usize) -> usize
    ensures { FirstGarbled bytes.now starts.now n result }
{
    first_garbled(bytes, starts, n).unwrap_or(0)
}

// Whether the parameters of a line that the table holds are all among those that the converter looks at, and the values of TYPE among the table's.
fn knows_params(line: &[u8], table: &[usize]) -> bool
    requires { Sound line.now table.now }
    ensures { result ≡ known_params (line_in line.now table.now).params }
{
    let mut counts = [0usize; params::COUNT];
    let mut froms = [0usize; params::COUNT];
    let mut tos = [0usize; params::COUNT];
    scan_rows(&mut counts, &mut froms, &mut tos, line, table);
    if counts[params::OTHER] != 0 {
        return false;
    }
    let mut marks = [0u8; types::COUNT];
    mark_rows(&mut marks, line, table, types::COUNT)
}

// 1 for a line that passes: any where `marks` is 0, else one whose parameters are known.
fn pass(line: &[u8], table: &[usize], marks: u8) -> usize
    requires { Sound line.now table.now }
    ensures { result ≡ passed marks (line_in line.now table.now).params }
{
    if marks == 0 {
        return 1;
    }
    if knows_params(line, table) {
        return 1;
    }
    0
}

// Each line taken apart into the lent table, up to one that is no line, and its parameters looked at where `marks` is not 0: how many pass. 0 where the
// table is too short for a line.
#[unsafe(no_mangle)]
pub extern "C" fn pieces_parse(
    table: &mut [usize],
    bytes: &[u8],
    starts: &[usize],
    n: usize,
    marks: u8,
) -> usize
    ensures { result ≡ parsed_lines table.old bytes.now starts.now n marks }
{
    if table.len() < table::LENGTH {
        return 0;
    }
    let mut good: usize = 0;
    for k in 0..n {
        let line = line_at(bytes, starts, k);
        if !fill(table, line) {
            return good;
        }
        let one = pass(line, table, marks);
        good += one;
    }
    good
}

// The validating reader: the length of the text, and 0 where it is refused.
#[unsafe(no_mangle)]
pub extern "C" fn pieces_read(json: &[u8]) -> usize
    ensures { result ≡ length_read json.now }
{
    match read(json, DEPTH) {
        Ok(_) => {
            return json.len();
        }
        Err(_) => {
            return 0;
        }
    }
}

// How a part is written, by number.
mod writers {
    // TEXT read.
    pub const READ: u8 = 0;

    // A line folded, as JSON to card writes it.
    pub const FOLD: u8 = 1;

    // A JSON string.
    pub const STRING: u8 = 2;

    // What a JSON string with its quotes stands for.
    pub const DECODE: u8 = 3;

    // The same spelled anew; any other number is a JSON text written compactly.
    pub const REQUOTE: u8 = 4;
}

// The end of a line.
const END: [u8; 2] = *b"\r\n";

// A line as the pens of JSON to card write it.
fn put_folded(out: &mut [u8], line: &[u8]) -> Result<usize, Full>
    ensures { Puts out.old (folded_line line.now) result out.new }
{
    let p = pen_bytes(out, 0, line);
    let n = p.bytes;
    let m = fill_bytes(&mut out[n..], &END);
    if m < 2 {
        return Err(Full);
    }
    let nm = n + m;
    Ok(nm)
}

// One part, by the writer of that number.
fn put_part(out: &mut [u8], part: &[u8], writer: u8) -> Result<usize, Full>
    ensures { Puts out.old (written writer part.now) result out.new }
{
    if writer == writers::READ {
        return read_text(out, part);
    }
    if writer == writers::FOLD {
        return put_folded(out, part);
    }
    if writer == writers::STRING {
        return put_string(out, part);
    }
    if writer == writers::DECODE {
        return decode_into(out, part, 1);
    }
    if writer == writers::REQUOTE {
        return put_requoted(out, part, 1);
    }
    put_compact(out, part)
}

// All parts, one after the other.
fn put_parts(
    out: &mut [u8],
    bytes: &[u8],
    starts: &[usize],
    n: usize,
    writer: u8,
) -> Result<usize, Full>
    ensures { Puts out.old (written_parts bytes.now starts.now n writer) result out.new }
{
    let mut at = 0;
    for k in 0..n {
        let m = put_part(&mut out[at..], line_at(bytes, starts, k), writer)?;
        at += m;
    }
    Ok(at)
}

// The same: how many bytes were written, and 0 where there was no room for all.
#[unsafe(no_mangle)]
pub extern "C" fn pieces_put(
    out: &mut [u8],
    bytes: &[u8],
    starts: &[usize],
    n: usize,
    writer: u8,
) -> usize
    ensures { PutsParts out.old (written_parts bytes.now starts.now n writer) result out.new }
{
    let Ok(k) = put_parts(out, bytes, starts, n, writer) else {
        return 0;
    };
    k
}
