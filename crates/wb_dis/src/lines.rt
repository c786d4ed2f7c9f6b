//! The canonical line of a word.
ghost use Rattle.std.specs.Prelude.{◌≡◌, ◌<◌, ◌≤◌, ◌+◌, ◌^◌, ◌++◌, ◌∷◌, [], Some, length, codes, ℕ};
ghost use Rattle.wb_word.specs.Names.{p_name, alu_name, acc_name, dpl_name, src_name, dst_name, cond_name};
ghost use Rattle.wb_dis.specs.Line.{m_name, alu_clause, move_clause, dp_clause, m_clause, rp_clause, clauses, with_clauses, op_line, word_line, jump_line, load_line, canonical_line};
ghost use Rattle.wb_dis.specs.Steps.{lead, and_clause};

use crate::digits::{put_hex3, put_hex4, put_hex6};
use arrayvec::ArrayString;
use wb_word::{Addr, Cond, Dpl, Dst, Instr, Nibble, OpWord, Spare, Word, decode};

/// A line of text without its line feed, in place.
pub type TextLine = ArrayString<64>;

/// The clause of a number that is XORed into the high four bits of DP.
fn m_name(value: u8) -> &'static str
    requires some { 0 < value }
    requires nibble { value < 16 }
    ensures name { result.now ≡ m_name value }
    ensures short { length result.now ≡ 2 }
{
    match value {
        1 => "m1",
        2 => "m2",
        3 => "m3",
        4 => "m4",
        5 => "m5",
        6 => "m6",
        7 => "m7",
        8 => "m8",
        9 => "m9",
        10 => "ma",
        11 => "mb",
        12 => "mc",
        13 => "md",
        14 => "me",
        15 => "mf",
        _ => unreachable!(),
    }
}

/// Appends what separates a clause from the line before it.
fn separate(line: &mut TextLine)
    requires { length line.old.bytes ≤ 56 }
    ensures text { line.new.bytes ≡ line.old.bytes ++ lead line.old.bytes }
    ensures room { length line.new.bytes ≤ length line.old.bytes + 3 }
{
    if line.len() == 2 {
        line.push_str(" ");
    } else {
        line.push_str(" | ");
    }
}

/// Appends what the ALU does.
#[tactic(auto, using(crate::proofs::NameLengths::short_names), unfolding(crate::specs::Steps::and_clause))]
fn put_alu(line: &mut TextLine, op: &OpWord)
    requires { length line.old.bytes ≤ 2 }
    ensures text { line.new.bytes ≡ and_clause line.old.bytes (alu_clause op.now) }
    ensures room { length line.new.bytes ≤ 15 }
{
    if op.alu.code() + op.p.code() + op.acc.code() == 0 {
        return;
    }
    separate(line);
    line.push_str(op.alu.name());
    line.push_str(" ");
    line.push_str(op.acc.name());
    line.push_str(",");
    line.push_str(op.p.name());
}

/// Appends the move.
#[tactic(auto, using(crate::proofs::NameLengths::short_names), unfolding(crate::specs::Steps::and_clause))]
fn put_move(line: &mut TextLine, op: &OpWord)
    requires { length line.old.bytes ≤ 15 }
    ensures text { line.new.bytes ≡ and_clause line.old.bytes (move_clause op.now) }
    ensures room { length line.new.bytes ≤ 30 }
{
    if op.src.code() + op.dst.code() == 0 {
        return;
    }
    separate(line);
    line.push_str("mov ");
    line.push_str(op.dst.name());
    line.push_str(",");
    line.push_str(op.src.name());
}

/// Appends what happens to the low four bits of DP.
#[tactic(auto, using(crate::proofs::NameLengths::short_names), unfolding(crate::specs::Steps::and_clause))]
fn put_dp(line: &mut TextLine, op: &OpWord)
    requires { length line.old.bytes ≤ 30 }
    ensures text { line.new.bytes ≡ and_clause line.old.bytes (dp_clause op.now) }
    ensures room { length line.new.bytes ≤ 38 }
{
    if op.dpl.code() == 0 {
        return;
    }
    separate(line);
    line.push_str(op.dpl.name());
}

/// Appends what is XORed into the high four bits of DP.
#[tactic(auto, unfolding(crate::specs::Steps::and_clause))]
fn put_m(line: &mut TextLine, op: &OpWord)
    requires { length line.old.bytes ≤ 38 }
    ensures text { line.new.bytes ≡ and_clause line.old.bytes (m_clause op.now) }
    ensures room { length line.new.bytes ≤ 43 }
{
    if op.dphm.value == 0 {
        return;
    }
    separate(line);
    line.push_str(m_name(op.dphm.value));
}

/// Appends that RP falls by one.
#[tactic(auto, unfolding(crate::specs::Steps::and_clause))]
fn put_rpdec(line: &mut TextLine, op: &OpWord)
    requires { length line.old.bytes ≤ 43 }
    ensures { line.new.bytes ≡ and_clause line.old.bytes (rp_clause op.now) }
{
    if op.rpdec {
        separate(line);
        line.push_str("rpdec");
    }
}

/// A word that computes and moves, under its mnemonic.
fn operation_line(mnemonic: &str, op: &OpWord) -> TextLine
    requires { length mnemonic.now ≡ 2 }
    ensures text { result.bytes ≡ with_clauses mnemonic.now (clauses op.now) }
    ensures short { length result.bytes ≤ 49 }
{
    let mut line = TextLine::new();
    line.push_str(mnemonic);
    put_alu(&mut line, op);
    put_move(&mut line, op);
    put_dp(&mut line, op);
    put_m(&mut line, op);
    put_rpdec(&mut line, op);
    line
}

/// A word that computes and moves, and doesn't return.
fn op_line(word: Word, op: &OpWord) -> TextLine
    ensures text { result.bytes ≡ op_line word.value op.now }
    ensures short { length result.bytes ≤ 49 }
{
    if word.value == 0 {
        let mut line = TextLine::new();
        line.push_str("nop");
        return line;
    }
    operation_line("op", op)
}

/// A word that no mnemonic spells.
fn word_line(word: Word) -> TextLine
    ensures { result.bytes ≡ word_line word.value }
{
    let mut line = TextLine::new();
    line.push_str(".word 0x");
    put_hex6(&mut line, word.value);
    line
}

/// A jump, where its code has a name and its spare bits are 0.
#[tactic(auto, using(crate::proofs::NameLengths::short_names))]
fn jump_line(word: Word, cond: Cond, na: Addr, spare: Spare) -> TextLine
    ensures { result.bytes ≡ jump_line word.value (cond_name cond) na.value spare.value }
{
    match cond.name() {
        Some(name) if spare.value == 0 => {
            let mut line = TextLine::new();
            line.push_str(name);
            line.push_str(" 0x");
            put_hex3(&mut line, u32::from(na.value));
            line
        }
        _ => word_line(word),
    }
}

/// A load, where its spare bits are 0.
#[tactic(auto, using(crate::proofs::NameLengths::short_names))]
fn load_line(word: Word, value: u16, spare: Spare, dst: Dst) -> TextLine
    ensures { result.bytes ≡ load_line word.value value spare.value dst }
{
    if spare.value != 0 {
        return word_line(word);
    }
    let mut line = TextLine::new();
    line.push_str("ld ");
    line.push_str(dst.name());
    line.push_str(",0x");
    put_hex4(&mut line, u32::from(value));
    line
}

/// The canonical line of a word: the one way in which a listing spells it.
#[tactic(auto, unfolding(crate::specs::Line::canonical_line))]
pub fn line_of(word: Word) -> TextLine
    ensures text { result.bytes ≡ canonical_line word.value }
    ensures short { length result.bytes ≤ 49 }
{
    match decode(word) {
        Instr::Op(op) => op_line(word, &op),
        Instr::Rt(op) => operation_line("rt", &op),
        Instr::Jp { cond, na, spare } => jump_line(word, cond, na, spare),
        Instr::Ld { value, spare, dst } => load_line(word, value, spare, dst),
    }
}
