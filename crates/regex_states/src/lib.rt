// States of an expression, kept for many texts. A state is a set of marks, and an edge says which state an ASCII character leads to. What is
// known of states and edges stands in two rooms that the caller owns beside the code; each text adds what it needs, so that the next one finds
// it there, and an ASCII character costs one look into a table.
//
// Row k of `sets` has 128 bytes: the marks of state k, at 126 whether its answer is settled, and at 127 whether a text may end there. Row k of
// `edges` has for each ASCII character the number of the state that it leads to, or 0 where that is not known. State 1 is the start. Row 0 of
// `sets` has the number of marks, 0 for an expression that has no states, the number of rows in use, whether the expression is open-ended, and
// whether it has no character beyond ASCII; then all of those lead to one state, whose number stands at 125, or 0 where it is not known.

#![tactic(auto)]

ghost use Rattle.std.specs.Prelude.{◌≡◌, true, ◌&&◌, ◌+◌, ◌*◌, ◌≤◌, ◌<◌, eqb, length};
ghost use Rattle.regex_match.specs.Tested.{Tested};
ghost use Rattle.regex_states.specs.Ready.{cells, width, count, Tables, Ready};
ghost use Rattle.regex_states.specs.Texts.{Inside, Followed, Stepped};
ghost use Rattle.regex_states.specs.Rooms.{Found, Put, Blank, Settling, Room, Placed, Noted, Traced, Suits, Weighed, Empties, Sealed, Headed, Beyond, AllLow};

use regex_chars::char_at;
use regex_marks::{dead, read, shift, weigh};
use regex_match::test;
use regex_plain::{ask, open_ended};

// The bytes of a row, which are also the ASCII characters.
const ROW: usize = 128;

const OTHER: usize = 125;

const SETTLED: usize = 126;

const TOLD: usize = 127;

// An expression with more marks has no states.
const MAX_MARKS: usize = 120;

// The marks take no more words of code; an expression has 8,205 at most.
const MAX_CODE: usize = 65535;

// The number of a state is a byte.
const MAX_STATES: usize = 255;

fn bit(b: bool) -> u8
    ensures { eqb result 1 ≡ b }
{
    if b { 1 } else { 0 }
}

// A place of a text, and the state in which it is reached.
#[derive(Clone, Copy)]
pub struct Spot {
    pub place: usize,
    pub state: usize,
}

// Goes on from a place as far as the edges are known.
fn follow(text: &[u8], edges: &[u8], from: usize, state: usize) -> Spot
    requires { (from ≤ length text.now) × Inside edges.now state }
    ensures { Followed edges.now text.now from state result.place result.state }
{
    let mut k = state;
    for i in from..text.len() {
        let b = usize::from(text[i]);
        if ROW <= b {
            return Spot { place: i, state: k };
        }
        let t = usize::from(edges[k * ROW + b]);
        if t == 0 {
            return Spot { place: i, state: k };
        }
        k = t;
    }
    Spot {
        place: text.len(),
        state: k,
    }
}

// Sets the marks of state k.
fn load(sets: &[u8], k: usize, marks: &mut [u8])
    requires { k * 128 + length marks.old ≤ length sets.now }
    ensures { marks.new ≡ cells sets.now (k * 128) (length marks.old) }
{
    let from = k * ROW;
    for i in 0..marks.len() {
        marks[i] = sets[from + i];
    }
}

// Whether the marks are those of state k.
fn same(sets: &[u8], k: usize, marks: &[u8]) -> bool
    requires { k * 128 + length marks.now ≤ length sets.now }
    ensures { result ≡ true → cells sets.now (k * 128) (length marks.now) ≡ marks.now }
{
    let from = k * ROW;
    for i in 0..marks.len() {
        if marks[i] != sets[from + i] {
            return false;
        }
    }
    true
}

// The state with these marks, of those before `count`, or 0. The start is none: it has read nothing.
fn find(sets: &[u8], marks: &[u8], count: usize) -> usize
    requires { (count * 128 ≤ length sets.now) × (length marks.now ≤ 128) }
    ensures { Found sets.now marks.now count result }
{
    for k in 2..count {
        if same(sets, k, marks) {
            return k;
        }
    }
    0
}

// Writes the marks into row k.
fn store(sets: &mut [u8], k: usize, marks: &[u8])
    requires { k * 128 + length marks.now ≤ length sets.old }
    ensures { Put sets.old k marks.now sets.new }
{
    let from = k * ROW;
    for i in 0..marks.len() {
        sets[from + i] = marks[i];
    }
}

// Clears row k.
fn blank(rows: &mut [u8], k: usize)
    requires { k * 128 + 128 ≤ length rows.old }
    ensures { Blank rows.old k rows.new }
{
    let from = k * ROW;
    for i in 0..ROW {
        rows[from + i] = 0;
    }
}

// Writes what state k tells.
fn seal(sets: &mut [u8], k: usize, told: bool, end: bool)
    requires { k * 128 + 128 ≤ length sets.old }
    ensures { Sealed sets.old k told end sets.new }
{
    sets[k * ROW + OTHER] = 0;
    sets[k * ROW + SETTLED] = bit(end);
    sets[k * ROW + TOLD] = bit(told);
}

// Whether a state's answer is the text's, whatever follows.
fn settles(marks: &[u8], told: bool, grows: bool) -> bool
    ensures { Settling marks.now told grows result }
{
    if told { grows } else { dead(marks) }
}

// Whether there is room for a state more.
fn has_room(count: usize, edges: usize, sets: usize) -> bool
    ensures { result ≡ true → Room count edges sets }
{
    count < MAX_STATES && count < edges / ROW && count < sets / ROW
}

// Makes a state of the marks, and answers its number, or 0 where there is no room.
fn add(edges: &mut [u8], sets: &mut [u8], marks: &[u8], told: bool) -> usize
    requires { (length marks.now ≤ 120) × (2 ≤ count sets.old) × (3 ≤ length sets.old) }
    ensures { Placed edges.old sets.old marks.now told edges.new sets.new result }
{
    let k = usize::from(sets[1]);
    if !has_room(k, edges.len(), sets.len()) {
        return 0;
    }
    let grows = sets[2] == 1;
    let end = settles(marks, told, grows);
    store(sets, k, marks);
    seal(sets, k, told, end);
    blank(edges, k);
    sets[1] = (k + 1) as u8;
    k
}

// The state of the marks: one that is known, or a new one, or 0 where there is no room.
fn state_of(edges: &mut [u8], sets: &mut [u8], marks: &[u8], told: bool) -> usize
    requires { (length marks.now ≤ 120) × (2 ≤ count sets.old) × (count sets.old * 128 ≤ length sets.old) }
    ensures { Placed edges.old sets.old marks.now told edges.new sets.new result }
{
    let count = usize::from(sets[1]);
    let t = find(sets, marks, count);
    if 0 < t {
        return t;
    }
    add(edges, sets, marks, told)
}

// Notes that c leads from state k to state t.
fn note(edges: &mut [u8], k: usize, c: u32, t: usize)
    requires { (k * 128 + 128 ≤ length edges.old) × (t ≤ 255) }
    ensures { Noted edges.old k c t edges.new }
{
    if t != 0 && c < 128 {
        edges[k * ROW + c as usize] = t as u8;
    }
}

// A state, and whether a text may end there.
#[derive(Clone, Copy)]
pub struct Next {
    pub state: usize,
    pub told: bool,
}

// Notes that the characters beyond ASCII lead from state k to state t as c does, if c is one and all are alike.
fn note_other(sets: &mut [u8], k: usize, c: u32, t: usize)
    requires { (k * 128 + 128 ≤ length sets.old) × (4 ≤ length sets.old) × (t ≤ 255) }
    ensures { Beyond sets.old k c t sets.new }
{
    if t != 0 && 128 <= c && sets[3] == 1 {
        sets[k * ROW + OTHER] = t as u8;
    }
}

// Reads the character c in state k by the marks, and notes the state that it leads to; that is 0 where there is no room for it.
fn learn(
    code: &[u32],
    k: usize,
    c: u32,
    edges: &mut [u8],
    sets: &mut [u8],
    marks: &mut [u8],
) -> Next
    requires fact_1 { Tables code.now edges.old sets.old }
    requires fact_2 { (1 ≤ k) × (k < count sets.old) × (length marks.old ≡ width sets.old) }
    ensures { Stepped code.now edges.old sets.old k c edges.new sets.new marks.new result.state result.told }
{
    load(sets, k, marks);
    let p = shift(code, 0, marks, 0, k == 1, c);
    let told = p % 2 == 1;
    let t = state_of(edges, sets, marks, told);
    note(edges, k, c, t);
    note_other(sets, k, c, t);
    Next {
        state: t,
        told: told,
    }
}

// Reads the character c in state k: by what is known of the characters beyond ASCII, or by the marks.
fn step(code: &[u32], k: usize, c: u32, edges: &mut [u8], sets: &mut [u8], marks: &mut [u8]) -> Next
    requires fact_1 { Tables code.now edges.old sets.old }
    requires fact_2 { (1 ≤ k) × (k < count sets.old) × (length marks.old ≡ width sets.old) }
    ensures { Stepped code.now edges.old sets.old k c edges.new sets.new marks.new result.state result.told }
{
    if 128 <= c {
        let t = usize::from(sets[k * ROW + OTHER]);
        if 0 < t {
            return Next {
                state: t,
                told: false,
            };
        }
    }
    learn(code, k, c, edges, sets, marks)
}

// Whether the text is described, from state to state. The marks are as many as the expression has.
fn trace(code: &[u32], text: &[u8], edges: &mut [u8], sets: &mut [u8], marks: &mut [u8]) -> bool
    requires fact_1 { Tables code.now edges.old sets.old }
    requires fact_2 { length marks.old ≡ width sets.old }
    ensures { Traced code.now text.now sets.old edges.new sets.new result }
{
    let end = text.len();
    let mut i = 0;
    let mut k = 1;
    // A loop over i: a step is as long as the way that is known, and the character behind it.
    while i < end {
        let s = follow(text, edges, i, k);
        i = s.place;
        k = s.state;
        if i < end {
            if sets[k * ROW + SETTLED] == 1 {
                return sets[k * ROW + TOLD] == 1;
            }
            let c = char_at(text, i, end);
            let t = step(code, k, c.value, edges, sets, marks);
            if t.state == 0 {
                let grows = sets[2] == 1;
                return read(code, text, marks, c.next, t.told, grows);
            }
            i = c.next;
            k = t.state;
        }
    }
    sets[k * ROW + TOLD] == 1
}

// Whether the expression is asked by its states: it has marks, not too many, and is no row of characters, which is asked faster by comparison.
fn has_states(code: &[u32], n: usize) -> bool
    ensures { result ≡ true → Suits code.now n }
{
    if n == 0 || MAX_MARKS < n || MAX_CODE < code.len() {
        return false;
    }
    let none = [0u8; 1];
    ask(code, &none).is_none()
}

// Whether the expression, which has n marks, describes the empty text: a step that enters nothing tells.
fn has_empty(code: &[u32], n: usize) -> bool
    requires { Suits code.now n }
    ensures { Empties code.now n result }
{
    let mut marks = [0u8; MAX_MARKS];
    let p = shift(code, 0, &mut marks[0..n], 0, false, 0);
    p / 4 % 2 == 1
}

// Writes the head: so many marks, the start in use, whether any end may follow what is described, and whether characters beyond ASCII are alike.
fn head(sets: &mut [u8], n: usize, grows: bool, alike: bool)
    requires { (n ≤ 120) × (4 ≤ length sets.old) }
    ensures { Headed sets.old n grows alike sets.new }
{
    sets[0] = n as u8;
    sets[1] = 2;
    sets[2] = bit(grows);
    sets[3] = bit(alike);
}

// Whether every word of the code is below 128: then no class tells two characters beyond ASCII apart.
fn all_low(code: &[u32]) -> bool
    ensures { result ≡ true → AllLow code.now }
{
    code.iter().all(|&w| w < 128)
}

// The start: nothing is read, and no edge is known.
fn begin(code: &[u32], edges: &mut [u8], sets: &mut [u8], n: usize)
    requires fact_1 { (256 ≤ length edges.old) × (256 ≤ length sets.old) }
    requires fact_2 { Suits code.now n }
    requires fact_3 { Weighed code.now n }
    ensures { Tables code.now edges.new sets.new }
{
    let told = has_empty(code, n);
    let grows = open_ended(code);
    blank(edges, 1);
    blank(sets, 1);
    seal(sets, 1, told, told && grows);
    let alike = all_low(code);
    head(sets, n, grows, alike);
}

// Makes the rooms ready for the code: nothing but the start is known.
pub fn prepare(code: &[u32], edges: &mut [u8], sets: &mut [u8])
    requires { (256 ≤ length edges.old) × (256 ≤ length sets.old) }
    ensures { Ready code.now edges.new sets.new }
{
    let w = weigh(code, 0, MAX_MARKS);
    let n = w.size;
    if has_states(code, n) {
        begin(code, edges, sets, n);
    } else {
        sets[0] = 0;
    }
}

// Whether the text is described by the expression that the code is of. The rooms are those of `prepare`, or of a test before. The marks are room.
pub fn test_with(
    code: &[u32],
    text: &[u8],
    edges: &mut [u8],
    sets: &mut [u8],
    marks: &mut [u8],
) -> bool
    requires { Ready code.now edges.old sets.old }
    ensures fact_1 { Tested code.now text.now result }
    ensures fact_2 { Ready code.now edges.new sets.new }
{
    let n = usize::from(sets[0]);
    if n == 0 {
        return test(code, text, marks);
    }
    if marks.len() < n {
        return test(code, text, marks);
    }
    trace(code, text, edges, sets, &mut marks[0..n])
}
