//! The names of codes, conditions and mnemonics, read back by the tables that write them.
ghost use Rattle.std.specs.Prelude.{◌≡◌, ◌≢◌, ◌<◌, ◌↔◌, List, ℕ, IfNone, IfSome, IsTrue, Some, option_map};
ghost use Rattle.wb_word.specs.Names.{p_name, alu_name, acc_name, dpl_name, src_name, dst_name, cond_name};
ghost use Rattle.wb_word.specs.declared.codes.P.{P};
ghost use Rattle.wb_word.specs.declared.codes.Alu.{Alu};
ghost use Rattle.wb_word.specs.declared.codes.Acc.{Acc};
ghost use Rattle.wb_word.specs.declared.codes.Dpl.{Dpl};
ghost use Rattle.wb_word.specs.declared.codes.Src.{Src};
ghost use Rattle.wb_word.specs.declared.codes.Dst.{Dst};
ghost use Rattle.wb_word.specs.declared.conditions.Cond.{Cond};
ghost use Rattle.wb_syntax.specs.Mnemonic.{mnemonic_name};
ghost use Rattle.wb_syntax.specs.declared.mnemonics.Mnemonic.{Mnemonic};

use crate::Mnemonic;
use wb_word::{Acc, Alu, Cond, Dpl, Dst, P, Src};

pub fn p_of(name: &[u8]) -> Option<P>
    ensures some { IfSome result (λ p. p_name p ≡ name.now) }
    ensures none { IfNone result ((p : P) → p_name p ≢ name.now) }
{
    for code in 0..4 {
        let p = P::from_code(code);
        if p.name().as_bytes() == name {
            return Some(p);
        }
    }
    None
}

pub fn alu_of(name: &[u8]) -> Option<Alu>
    ensures some { IfSome result (λ alu. alu_name alu ≡ name.now) }
    ensures none { IfNone result ((alu : Alu) → alu_name alu ≢ name.now) }
{
    for code in 0..16 {
        let alu = Alu::from_code(code);
        if alu.name().as_bytes() == name {
            return Some(alu);
        }
    }
    None
}

pub fn acc_of(name: &[u8]) -> Option<Acc>
    ensures some { IfSome result (λ acc. acc_name acc ≡ name.now) }
    ensures none { IfNone result ((acc : Acc) → acc_name acc ≢ name.now) }
{
    for code in 0..2 {
        let acc = Acc::from_code(code);
        if acc.name().as_bytes() == name {
            return Some(acc);
        }
    }
    None
}

pub fn dpl_of(name: &[u8]) -> Option<Dpl>
    ensures some { IfSome result (λ dpl. dpl_name dpl ≡ name.now) }
    ensures none { IfNone result ((dpl : Dpl) → dpl_name dpl ≢ name.now) }
{
    for code in 0..4 {
        let dpl = Dpl::from_code(code);
        if dpl.name().as_bytes() == name {
            return Some(dpl);
        }
    }
    None
}

pub fn src_of(name: &[u8]) -> Option<Src>
    ensures some { IfSome result (λ src. src_name src ≡ name.now) }
    ensures none { IfNone result ((src : Src) → src_name src ≢ name.now) }
{
    for code in 0..16 {
        let src = Src::from_code(code);
        if src.name().as_bytes() == name {
            return Some(src);
        }
    }
    None
}

pub fn dst_of(name: &[u8]) -> Option<Dst>
    ensures some { IfSome result (λ dst. dst_name dst ≡ name.now) }
    ensures none { IfNone result ((dst : Dst) → dst_name dst ≢ name.now) }
{
    for code in 0..16 {
        let dst = Dst::from_code(code);
        if dst.name().as_bytes() == name {
            return Some(dst);
        }
    }
    None
}

// Whether this is a name that something has.
fn is_name(own: Option<&str>, name: &[u8]) -> bool
    ensures { IsTrue result ↔ (option_map (λ own. own.now) own.entry ≡ Some name.now) }
{
    match own {
        Some(own) => own.as_bytes() == name,
        None => false,
    }
}

fn cond_of(name: &[u8]) -> Option<Cond>
    ensures some { IfSome result (λ cond. cond_name cond ≡ Some name.now) }
    ensures none { IfNone result ((cond : Cond) → cond_name cond ≢ Some name.now) }
{
    for code in 128..321 {
        let cond = Cond::from_code(code);
        if is_name(cond.name(), name) {
            return Some(cond);
        }
    }
    None
}

/// The mnemonic of this name.
pub fn mnemonic_of(name: &[u8]) -> Option<Mnemonic>
    ensures some { IfSome result (λ mnemonic. mnemonic_name mnemonic ≡ Some name.now) }
    ensures none { IfNone result ((mnemonic : Mnemonic) → mnemonic_name mnemonic ≢ Some name.now) }
{
    let mnemonic = if name == b"nop".as_slice() {
        Mnemonic::Nop
    } else if name == b"op".as_slice() {
        Mnemonic::Op
    } else if name == b"rt".as_slice() {
        Mnemonic::Rt
    } else if name == b"ld".as_slice() {
        Mnemonic::Ld
    } else if name == b".org".as_slice() {
        Mnemonic::Org
    } else if name == b".dorg".as_slice() {
        Mnemonic::Dorg
    } else if name == b".equ".as_slice() {
        Mnemonic::Equ
    } else if name == b".word".as_slice() {
        Mnemonic::Word
    } else if name == b".dw".as_slice() {
        Mnemonic::Dw
    } else {
        Mnemonic::Jump(cond_of(name)?)
    };
    Some(mnemonic)
}
