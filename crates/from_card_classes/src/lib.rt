// The pass over a card's unfolded lines: refusals 5 to 10, and the class of each line by number.
#![tactic(auto)]

ghost use Rattle.std.specs.Prelude.{◌≡◌, ◌+◌, ◌≤◌, ◌<◌, length};
ghost use Rattle.convert.specs.Answers.{misused, emptied, is_version_line, line_room};
ghost use Rattle.line_table.specs.Table.{line_in, Sound};
ghost use Rattle.table_entry.specs.Key.{Rowed};
ghost use Rattle.class_line.specs.Class.{ClassIn};
ghost use Rattle.class_member.specs.Member.{Room};
ghost use Rattle.from_card_refusals.specs.Line.{Coded};
ghost use Rattle.from_card_refusals.specs.Judged.{judged_with};
ghost use Rattle.from_card_seen.specs.Ids.{Cut};
ghost use Rattle.from_card_classes.specs.Pass.{Ready, Noted, NextLine, HasLines, Lent, Passes, fresh};

use card_table::params;
use class_line::{Class, class_numbered};
use class_properties::name_code;
use convert_params::Rows;
use from_card_refusals::{
    Judged, is_emptied, is_misused, is_version_line, judge, refusal_of, unjudged,
};
use from_card_seen::settle;
use line_table::{fill, table};
use line_unfold::line_at;
use served::Refusal;
use table_params::scan_rows;

// What is carried from line to line: what refusals 6 to 10 ask, whether FN and N have converted, how many keys are noted.
#[derive(Drop)]
pub struct Pass {
    pub judged: Judged,
    pub full: bool,
    pub parts: bool,
    pub count: usize,
}

// The line with the number k, from 0 on, judged by its table.
fn judge_line(j: Judged, k: usize, code: usize, rows: Rows<'_>, s: &[u8], t: &[usize]) -> Judged
    requires { (k < line_room) × Rowed s.now t.now rows × Coded code (line_in s.now t.now) }
    ensures { result ≡ judged_with j (k + 1) code (misused (line_in s.now t.now)) (emptied (line_in s.now t.now)) (is_version_line (line_in s.now t.now)) }
{
    let misused = is_misused(code, rows, s, t);
    let emptied = is_emptied(code, s, t);
    let version = is_version_line(code, s, t);
    judge(j, k + 1, code, misused, emptied, version)
}

// The line, whose class is known up to what was seen before: its number is stored, what it leaves behind is noted.
fn pass_line(
    codes: &mut [u8],
    ids: &mut [usize],
    prints: &mut [u16],
    p: Pass,
    k: usize,
    judged: Judged,
    bytes: &[u8],
    at: usize,
    s: &[u8],
    class: Class,
) -> Pass
    requires { (k < length codes.old) × Ready bytes.now codes.old ids.old prints.old k p × Cut bytes.now s.now at × ClassIn s.now class }
    ensures { Noted bytes.now s.now codes.old ids.old k p judged class codes.new ids.new prints.new result }
{
    let r = settle(ids, prints, p.count, p.full, p.parts, bytes, at, s, class);
    codes[k] = r.code;
    Pass {
        judged,
        full: r.full,
        parts: r.parts,
        count: r.count,
    }
}

// The line with the number k, from 0 on, which stands from `at` on and which the table holds.
fn next_line(
    codes: &mut [u8],
    ids: &mut [usize],
    prints: &mut [u16],
    text: &mut [u8],
    p: Pass,
    k: usize,
    bytes: &[u8],
    at: usize,
    s: &[u8],
    t: &[usize],
) -> Pass
    requires { (k < line_room) × (k < length codes.old) × Ready bytes.now codes.old ids.old prints.old k p × Cut bytes.now s.now at × Sound s.now t.now × Room s.now text.old }
    ensures { NextLine bytes.now s.now t.now codes.old ids.old k p codes.new ids.new prints.new result }
{
    let mut counts = [0usize; params::COUNT];
    let mut froms = [0usize; params::COUNT];
    let mut tos = [0usize; params::COUNT];
    scan_rows(&mut counts, &mut froms, &mut tos, s, t);
    let rows = Rows {
        counts: &counts,
        froms: &froms,
        tos: &tos,
    };
    let a = t[table::NAME];
    let b = t[table::NAME_END];
    let code = name_code(&s[a..b]);
    let before = p.judged;
    let judged = judge_line(before, k, code, rows, s, t);
    let class = class_numbered(code, rows, s, t, text, p.full, p.parts);
    pass_line(codes, ids, prints, p, k, judged, bytes, at, s, class)
}

// Before the first line.
fn begun() -> Pass
    ensures { result ≡ fresh }
{
    let judged = unjudged();
    Pass {
        judged,
        full: false,
        parts: false,
        count: 0,
    }
}

// All n lines. The tables are scratch, as long as n lines need, but `codes`: there the number of each line's class stands where no refusal is given.
pub fn class_lines(
    codes: &mut [u8],
    ids: &mut [usize],
    prints: &mut [u16],
    table: &mut [usize],
    text: &mut [u8],
    bytes: &[u8],
    starts: &[usize],
    n: usize,
) -> Option<Refusal>
    requires { HasLines bytes.now starts.now n × Lent codes.old ids.old prints.old table.old text.old bytes.now n }
    ensures { Passes bytes.now starts.now codes.new n result }
{
    let mut p = begun();
    for k in 0..n {
        let at = starts[k];
        let s = line_at(bytes, starts, k);
        if !fill(table, s) {
            return Some(Refusal {
                number: 5,
                place: k + 1,
            });
        }
        p = next_line(codes, ids, prints, text, p, k, bytes, at, s, table);
    }
    refusal_of(p.judged)
}
