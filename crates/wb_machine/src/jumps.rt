ghost use Rattle.std.specs.Prelude.{◌≡◌};
ghost use Rattle.wb_machine.specs.Next.{taken};

use crate::registers::Regs;
use wb_word::Cond;

/// Whether a jump with this condition is taken.
#[tactic(auto, unfolding(crate::specs::Next::taken))]
pub(crate) fn is_taken(cond: Cond, regs: &Regs) -> bool
    ensures { result ≡ taken cond regs.now }
{
    match cond {
        Cond::Jnca => !regs.flags_a.c,
        Cond::Jca => regs.flags_a.c,
        Cond::Jncb => !regs.flags_b.c,
        Cond::Jcb => regs.flags_b.c,
        Cond::Jnza => !regs.flags_a.z,
        Cond::Jza => regs.flags_a.z,
        Cond::Jnzb => !regs.flags_b.z,
        Cond::Jzb => regs.flags_b.z,
        Cond::Jnova0 => !regs.flags_a.ov0,
        Cond::Jova0 => regs.flags_a.ov0,
        Cond::Jnovb0 => !regs.flags_b.ov0,
        Cond::Jovb0 => regs.flags_b.ov0,
        Cond::Jnova1 => !regs.flags_a.ov1,
        Cond::Jova1 => regs.flags_a.ov1,
        Cond::Jnovb1 => !regs.flags_b.ov1,
        Cond::Jovb1 => regs.flags_b.ov1,
        Cond::Jnsa0 => !regs.flags_a.s0,
        Cond::Jsa0 => regs.flags_a.s0,
        Cond::Jnsb0 => !regs.flags_b.s0,
        Cond::Jsb0 => regs.flags_b.s0,
        Cond::Jnsa1 => !regs.flags_a.s1,
        Cond::Jsa1 => regs.flags_a.s1,
        Cond::Jnsb1 => !regs.flags_b.s1,
        Cond::Jsb1 => regs.flags_b.s1,
        Cond::Jdpl0 => regs.dp & 0xF == 0,
        Cond::Jdpln0 => !(regs.dp & 0xF == 0),
        Cond::Jdplf => regs.dp & 0xF == 15,
        Cond::Jdplnf => !(regs.dp & 0xF == 15),
        Cond::Jnsiak => true,
        Cond::Jsiak => false,
        Cond::Jnsoak => true,
        Cond::Jsoak => false,
        Cond::Jnrqm => !(regs.sr >> 15 & 1 == 1),
        Cond::Jrqm => regs.sr >> 15 & 1 == 1,
        Cond::Jmp => true,
        Cond::Call => true,
        Cond::Other(_) => false,
    }
}
