//! One line of the third reading.
ghost use Rattle.std.specs.Prelude.{◌≡◌, ◌≤◌, ◌∷◌, [], ◌++◌, ◌⊎◌, None, Some, Ok, Err, IfErr, OnOk, MatchResult, pos, negsuc};
ghost use Rattle.wb_asm.specs.Layout.{here, early_number, early_fault, program_after, data_after, with_label, with_equ, label_fault, equ_fault, twice_fault, after, line_fault, program_words, data_words, place_fault};
ghost use Rattle.wb_asm.specs.Reading.{IsEarly, IsCounter, IsPlaced, IsSettled};
ghost use Rattle.wb_asm.specs.Refusal.{IsRefusal};
ghost use Rattle.wb_asm.specs.declared.faults.AsmError.{AsmError};

use crate::faults::{AsmError, AsmFault, AsmKind};
use crate::layout::Layout;
use crate::values::{name_of, value_in};
use wb_syntax::{Body, Span, Statement};

/// A fault on a line.
pub(crate) fn at_line(line: u32, kind: AsmKind) -> AsmError
    ensures { result ≡ AsmError.Fault (record { line = line; kind = kind }) }
{
    AsmError::Fault(AsmFault { line, kind })
}

impl<'a> Layout<'a> {
    /// The number of a label and of `$`.
    fn here(&self, body: &Body) -> u16
        ensures { result ≡ here self.now body.now }
    {
        match body {
            Body::Dorg(_) | Body::Dwords(_) => self.drom.at(),
            _ => self.prog.at(),
        }
    }

    /// The number that has to be known at once, or what is wrong with it.
    fn early(&self, text: &[u8], body: &Body) -> Result<i64, AsmKind>
        ensures { MatchResult result (IsEarly text.now self.now body.now) (λ kind. early_fault text.now self.now body.now ≡ Some kind) }
    {
        let here = self.here(body);
        match body {
            Body::Org(x) => value_in(0, 2047, text, &self.names, here, x),
            Body::Dorg(x) => value_in(0, 1023, text, &self.names, here, x),
            Body::Equ(_, x) => value_in(i64::MIN, i64::MAX, text, &self.names, here, x),
            _ => Ok(0),
        }
    }

    /// Defines a name.
    fn define(&mut self, line: u32, name: &'a [u8], number: i64) -> Result<(), AsmError>
        ensures ok { OnOk result ((twice_fault self.old.names name.now ≡ None)
            × (self.new ≡ record self.old { names = self.old.names ++ (name.now, number) ∷ [] })) }
        ensures err { IfErr result (IsRefusal line (twice_fault self.old.names name.now)) }
    {
        if self.names.number(name).is_some() {
            return Err(at_line(line, AsmKind::Twice));
        }
        self.names.define(name, number)?;
        Ok(())
    }

    /// Defines a label, where there is one.
    fn label(
        &mut self,
        text: &'a [u8],
        line: u32,
        at: u16,
        label: Option<Span>,
    ) -> Result<(), AsmError>
        ensures ok { OnOk result ((label_fault text.now self.old.names label ≡ None)
            × (self.new ≡ record self.old { names = with_label text.now self.old.names at label })) }
        ensures err { IfErr result (IsRefusal line (label_fault text.now self.old.names label)) }
    {
        match label {
            Some(label) => self.define(line, name_of(text, label), i64::from(at)),
            None => Ok(()),
        }
    }

    /// The name of an `.equ` must be new.
    fn check_equ(&self, text: &[u8], line: u32, body: &Body) -> Result<(), AsmError>
        ensures ok { OnOk result (equ_fault text.now self.now.names body.now ≡ None) }
        ensures err { IfErr result (IsRefusal line (equ_fault text.now self.now.names body.now)) }
    {
        match body {
            Body::Equ(name, _) if self.names.number(name_of(text, *name)).is_some() => {
                Err(at_line(line, AsmKind::Twice))
            }
            _ => Ok(()),
        }
    }

    /// Places the words of a statement.
    fn place(&mut self, body: &Body) -> Result<(), AsmKind>
        ensures { MatchResult result (λ _. IsPlaced self.old self.new body.now) (λ kind. place_fault self.old body.now ≡ Some kind) }
    {
        match body {
            Body::Op(_) | Body::Rt(_) | Body::Ld(_, _) | Body::Jump(_, _) => self.prog.place_all(1),
            Body::Words(xs) => self.prog.place_all(xs.as_slice().len()),
            Body::Dwords(xs) => self.drom.place_all(xs.as_slice().len()),
            _ => Ok(()),
        }
    }

    /// Does what a statement says beside its label.
    fn settle(
        &mut self,
        text: &'a [u8],
        line: u32,
        body: &Body,
        number: i64,
    ) -> Result<(), AsmError>
        requires fresh { equ_fault text.now self.old.names body.now ≡ None }
        requires counter { IsCounter body.now number }
        ensures ok { OnOk result (IsSettled text.now self.old self.new body.now number) }
        ensures err { IfErr result (IsRefusal line (place_fault self.old body.now)) }
    {
        match body {
            Body::Org(_) => self.prog.go_to(number as u16),
            Body::Dorg(_) => self.drom.go_to(number as u16),
            Body::Equ(name, _) => self.names.define(name_of(text, *name), number)?,
            _ => {
                if let Err(kind) = self.place(body) {
                    return Err(at_line(line, kind));
                }
            }
        }
        Ok(())
    }

    /// Reads one line further.
    #[tactic(auto, unfolding(crate::specs::Layout::after, crate::specs::Layout::line_fault))]
    pub(crate) fn read(&mut self, text: &'a [u8], statement: &Statement) -> Result<(), AsmError>
        ensures ok { OnOk result ((line_fault text.now self.old statement.now ≡ None) × (self.new ≡ after text.now self.old statement.now)) }
        ensures err { IfErr result (IsRefusal statement.now.line (line_fault text.now self.old statement.now)) }
    {
        let line = statement.line;
        let body = &statement.body;
        let early = self.early(text, body);
        self.label(text, line, self.here(body), statement.label)?;
        self.check_equ(text, line, body)?;
        match early {
            Ok(number) => self.settle(text, line, body, number),
            Err(kind) => Err(at_line(line, kind)),
        }
    }
}
