// An admitted stream, and what its packets are made of.

ghost use Rattle.std.specs.Prelude.{◌≡◌, ◌≤◌, ◌<◌, length, vec_len, Some};
ghost use Rattle.trex_layers.specs.declared.sizes.TheConstants.{LONGEST_PACKET, SHORTEST_PACKET};
ghost use Rattle.trex_sched.specs.Times.{period_of};
ghost use Rattle.trex_profile.specs.Rules.{numerator_of};

use crate::fault::StreamFault;
use crate::flow::{Flow, version_of};
use crate::instructions::program::{parts_of, program_for};
use crate::raw::{RawInstr, RawRate, RawStream};
use crate::rules::times::period_of;
use std::alloc::Global;
use trex_sched::{Leg, Mode, Period};
use trex_vars::VarSpec;
use trex_vm::{Program, programs_fit};

/// What the packets of a stream are made of.
#[derive(Drop)]
pub struct StreamSpec {
    // What each packet reads stands before what is read at the start alone.
    pub id: u32,
    /// The bytes of each packet before its instructions, 14 to 9,216.
    pub template: Vec<u8>,
    /// The instructions beside those of variables.
    pub program: Program,
    /// The flow of the packets, where they end in latency headers.
    pub flow: Option<Flow>,
    /// The variables, in the order of their instructions.
    pub vars: Vec<VarSpec>,
    /// Of each of them, whether it restarts at each visit of the stream.
    pub restart: Vec<bool>,
    pub ghost paired: { vec_len restart ≡ vec_len vars },
    pub ghost at_least: { SHORTEST_PACKET ≤ vec_len template },
    pub ghost at_most: { vec_len template ≤ LONGEST_PACKET },
}

/// A stream whose values keep the rules.
#[derive(Drop)]
pub(crate) struct Member {
    pub(crate) spec: StreamSpec,
    pub(crate) enabled: bool,
    pub(crate) self_start: bool,
    pub(crate) isg: u64,
    pub(crate) next: Option<u32>,
    pub(crate) action_count: u32,
    pub(crate) seed: u64,
    pub(crate) rate: RawRate,
    pub(crate) mode: Mode,
    pub(crate) instrs: Vec<RawInstr>,
    pub(crate) period: Period,
    ghost timed: { ∥ period_of (numerator_of rate.kind (length spec.template.items)) rate.value ≡ Some period ∥₁ },
}

impl Member {
    ghost use Rattle.trex_profile.specs.Answer.{Gives};
    ghost use Rattle.trex_profile.specs.Chains.{leg_at};
    ghost use Rattle.trex_profile.specs.Member.{member_stream};
    ghost use Rattle.trex_profile.specs.Order.{unless};
    ghost use Rattle.trex_profile.specs.Rules.{value_rules};
    ghost use Rattle.trex_profile.specs.Spec.{IsSpecOf};
    ghost use Rattle.trex_profile.specs.Stream.{raw_stream, IsRawStream};
    ghost use Rattle.std.specs.Prelude.{IfOk};

    /// The stream, where its values keep the rules, else the first that is broken.
    #[tactic(auto, unfolding(crate::specs::Rules::value_rules))]
    pub(crate) fn of(alloc: Global, raw: RawStream) -> Result<Member, StreamFault>
        requires { IsRawStream raw }
        ensures value { Gives member_stream result (unless (value_rules (raw_stream raw)) (raw_stream raw)) }
        ensures spec { IfOk result (λ member. IsSpecOf (member_stream member) member.spec) }
    {
        let period = period_of(&raw)?;
        let parts = parts_of(alloc, &raw.template, raw.seed, &raw.instrs)?;
        let program = program_for(
            alloc,
            &parts.vars,
            &parts.steps,
            &raw.template,
            version_of(raw.flow),
        )?;
        // An accepted program is meant for its template and for the values of its variables.
        programs_fit();
        Ok(Member {
            spec: StreamSpec {
                id: raw.id,
                template: raw.template,
                program,
                flow: raw.flow,
                vars: parts.vars,
                restart: parts.restart,
            },
            enabled: raw.enabled,
            self_start: raw.self_start,
            isg: raw.isg,
            next: raw.next,
            action_count: raw.action_count,
            seed: raw.seed,
            rate: raw.rate,
            mode: raw.mode,
            instrs: raw.instrs,
            period,
        })
    }

    /// The stream as a chain visits it.
    pub(crate) fn leg(&self, position: u32) -> Leg
        ensures { result ≡ leg_at position (member_stream self.now) }
    {
        Leg {
            stream: position,
            isg: self.isg,
            period: self.period,
            mode: self.mode,
            actions: self.action_count,
        }
    }
}
