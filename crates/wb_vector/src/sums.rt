//! Sums and differences of words, and their carries.
ghost use Rattle.std.specs.Prelude.{◌+◌, ◌-◌, ◌%◌, nat_lt, IfOk, IfErr};
ghost use Rattle.wb_diagram.specs.Forest.{HasDiagram};
ghost use Rattle.wb_diagram.specs.Values.{value, IsFunction};
ghost use Rattle.wb_diagram.specs.Growth.{Grown, IsRefusal};
ghost use Rattle.wb_vector.specs.Vectors.{bit, number, AreThere, IsNumber};
ghost use Rattle.wb_vector.specs.Sums.{differ, carry_bit, borrow_bit};

use crate::bitwise::Vector;
use wb_diagram::{Diagram, Diagrams, Refused};

/// The sum of three bits and its carry.
#[tactic(auto, using(crate::proofs::Words::grown_more))]
fn add_bits(
    diagrams: &mut Diagrams,
    x: Diagram,
    y: Diagram,
    z: Diagram,
    steps: &mut u32,
) -> Result<(Diagram, Diagram), Refused>
    requires x_there { HasDiagram diagrams.old x }
    requires y_there { HasDiagram diagrams.old y }
    requires z_there { HasDiagram diagrams.old z }
    ensures sum { IfOk result (λ r. IsFunction diagrams.new r.0
        (λ v. differ (differ (value v diagrams.old x) (value v diagrams.old y)) (value v diagrams.old z))) }
    ensures carry { IfOk result (λ r. IsFunction diagrams.new r.1
        (λ v. carry_bit (value v diagrams.old x) (value v diagrams.old y) (value v diagrams.old z))) }
    ensures grown { Grown diagrams.old diagrams.new }
    ensures refused { IfErr result (IsRefusal diagrams.new steps.new) }
{
    let differing = diagrams.xor(x, y, steps)?;
    let sum = diagrams.xor(differing, z, steps)?;
    let carry = diagrams.ite(differing, z, x, steps)?;
    Ok((sum, carry))
}

/// A bit less two others, and its borrow.
#[tactic(auto, using(crate::proofs::Words::grown_more))]
fn subtract_bits(
    diagrams: &mut Diagrams,
    x: Diagram,
    y: Diagram,
    z: Diagram,
    steps: &mut u32,
) -> Result<(Diagram, Diagram), Refused>
    requires x_there { HasDiagram diagrams.old x }
    requires y_there { HasDiagram diagrams.old y }
    requires z_there { HasDiagram diagrams.old z }
    ensures difference { IfOk result (λ r. IsFunction diagrams.new r.0
        (λ v. differ (differ (value v diagrams.old x) (value v diagrams.old y)) (value v diagrams.old z))) }
    ensures borrow { IfOk result (λ r. IsFunction diagrams.new r.1
        (λ v. borrow_bit (value v diagrams.old x) (value v diagrams.old y) (value v diagrams.old z))) }
    ensures grown { Grown diagrams.old diagrams.new }
    ensures refused { IfErr result (IsRefusal diagrams.new steps.new) }
{
    let differing = diagrams.xor(x, y, steps)?;
    let difference = diagrams.xor(differing, z, steps)?;
    let borrow = diagrams.ite(differing, y, z, steps)?;
    Ok((difference, borrow))
}

/// The carry alone of three bits.
#[tactic(auto, using(crate::proofs::Words::grown_more))]
fn carry_bits(
    diagrams: &mut Diagrams,
    x: Diagram,
    y: Diagram,
    z: Diagram,
    steps: &mut u32,
) -> Result<Diagram, Refused>
    requires x_there { HasDiagram diagrams.old x }
    requires y_there { HasDiagram diagrams.old y }
    requires z_there { HasDiagram diagrams.old z }
    ensures means { IfOk result (λ d. IsFunction diagrams.new d
        (λ v. carry_bit (value v diagrams.old x) (value v diagrams.old y) (value v diagrams.old z))) }
    ensures grown { Grown diagrams.old diagrams.new }
    ensures refused { IfErr result (IsRefusal diagrams.new steps.new) }
{
    let differing = diagrams.xor(x, y, steps)?;
    diagrams.ite(differing, z, x, steps)
}

/// The borrow alone of a bit less two others.
#[tactic(auto, using(crate::proofs::Words::grown_more))]
fn borrow_bits(
    diagrams: &mut Diagrams,
    x: Diagram,
    y: Diagram,
    z: Diagram,
    steps: &mut u32,
) -> Result<Diagram, Refused>
    requires x_there { HasDiagram diagrams.old x }
    requires y_there { HasDiagram diagrams.old y }
    requires z_there { HasDiagram diagrams.old z }
    ensures means { IfOk result (λ d. IsFunction diagrams.new d
        (λ v. borrow_bit (value v diagrams.old x) (value v diagrams.old y) (value v diagrams.old z))) }
    ensures grown { Grown diagrams.old diagrams.new }
    ensures refused { IfErr result (IsRefusal diagrams.new steps.new) }
{
    let differing = diagrams.xor(x, y, steps)?;
    diagrams.ite(differing, y, z, steps)
}

/// Two words and a carry added: the low 16 bits.
pub fn sum_of(
    diagrams: &mut Diagrams,
    x: &Vector,
    y: &Vector,
    c: Diagram,
    steps: &mut u32,
) -> Result<Vector, Refused>
    requires x_there { AreThere diagrams.old x.now }
    requires y_there { AreThere diagrams.old y.now }
    requires c_there { HasDiagram diagrams.old c }
    ensures means { IfOk result (λ w. IsNumber diagrams.new w
        (λ v. (number v diagrams.old x.now + number v diagrams.old y.now + bit (value v diagrams.old c)) % 65536)) }
    ensures grown { Grown diagrams.old diagrams.new }
    ensures refused { IfErr result (IsRefusal diagrams.new steps.new) }
{
    let mut sum = [diagrams.leaf(false); 16];
    let mut carry = c;
    for at in 0..16 {
        let (low, high) = add_bits(diagrams, x[at], y[at], carry, steps)?;
        sum[at] = low;
        carry = high;
    }
    Ok(sum)
}

/// Whether two words and a carry are over 65535.
pub fn carry_of(
    diagrams: &mut Diagrams,
    x: &Vector,
    y: &Vector,
    c: Diagram,
    steps: &mut u32,
) -> Result<Diagram, Refused>
    requires x_there { AreThere diagrams.old x.now }
    requires y_there { AreThere diagrams.old y.now }
    requires c_there { HasDiagram diagrams.old c }
    ensures means { IfOk result (λ d. IsFunction diagrams.new d
        (λ v. nat_lt 65535 (number v diagrams.old x.now + number v diagrams.old y.now + bit (value v diagrams.old c)))) }
    ensures grown { Grown diagrams.old diagrams.new }
    ensures refused { IfErr result (IsRefusal diagrams.new steps.new) }
{
    let mut carry = c;
    for at in 0..16 {
        let next = carry_bits(diagrams, x[at], y[at], carry, steps)?;
        carry = next;
    }
    Ok(carry)
}

/// A word less another and a borrow: the low 16 bits.
pub fn difference_of(
    diagrams: &mut Diagrams,
    x: &Vector,
    y: &Vector,
    c: Diagram,
    steps: &mut u32,
) -> Result<Vector, Refused>
    requires x_there { AreThere diagrams.old x.now }
    requires y_there { AreThere diagrams.old y.now }
    requires c_there { HasDiagram diagrams.old c }
    ensures means { IfOk result (λ w. IsNumber diagrams.new w
        (λ v. (number v diagrams.old x.now + 65536 - (number v diagrams.old y.now + bit (value v diagrams.old c))) % 65536)) }
    ensures grown { Grown diagrams.old diagrams.new }
    ensures refused { IfErr result (IsRefusal diagrams.new steps.new) }
{
    let mut difference = [diagrams.leaf(false); 16];
    let mut borrow = c;
    for at in 0..16 {
        let (low, high) = subtract_bits(diagrams, x[at], y[at], borrow, steps)?;
        difference[at] = low;
        borrow = high;
    }
    Ok(difference)
}

/// Whether a word is below another and a borrow.
pub fn borrow_of(
    diagrams: &mut Diagrams,
    x: &Vector,
    y: &Vector,
    c: Diagram,
    steps: &mut u32,
) -> Result<Diagram, Refused>
    requires x_there { AreThere diagrams.old x.now }
    requires y_there { AreThere diagrams.old y.now }
    requires c_there { HasDiagram diagrams.old c }
    ensures means { IfOk result (λ d. IsFunction diagrams.new d
        (λ v. nat_lt (number v diagrams.old x.now) (number v diagrams.old y.now + bit (value v diagrams.old c)))) }
    ensures grown { Grown diagrams.old diagrams.new }
    ensures refused { IfErr result (IsRefusal diagrams.new steps.new) }
{
    let mut borrow = c;
    for at in 0..16 {
        let next = borrow_bits(diagrams, x[at], y[at], borrow, steps)?;
        borrow = next;
    }
    Ok(borrow)
}
