// Targets: each label's name becomes the number of the line for which it stands.
ghost use Rattle.std.specs.Prelude.{◌≡◌, ◌+◌, ◌*◌, ◌<◌, ◌^◌, ◌&&◌, IfErr, IfOk, MatchResult, None, Some, length, map, nat_le};
ghost use Rattle.std.specs.Option.{unwrap_or};
ghost use Rattle.rv_reader.specs.Errors.{IsRefusal};
ghost use Rattle.rv_reader.specs.Refusals.{reach_cause, settled, stands_for, target_cause, targets_refusal};
ghost use Rattle.rv_reader.specs.Views.{drafted};

use crate::body::Body;
use crate::draft::Draft;
use crate::error::{AsmError, TOO_FAR, UNDEFINED};
use crate::labels::Labels;
use rv_line::Line;
use std::alloc::Global;

/// Whether a target lies at most so many bytes before a line, or behind it. A line has 4 bytes.
fn is_in_reach(low: u64, high: u64, at: u32, target: u32) -> bool
    requires low { low < 2 ^ 32 }
    requires high { high < 2 ^ 32 }
    ensures { result ≡ (nat_le (4 * at) (4 * target + low) && nat_le (4 * target) (4 * at + high)) }
{
    let at = 4 * u64::from(at);
    let target = 4 * u64::from(target);
    at <= target + low && target <= at + high
}

fn target_of(labels: &Labels<'_>, low: u64, high: u64, at: u32, label: &[u8]) -> Result<u32, u8>
    requires low { low < 2 ^ 32 }
    requires high { high < 2 ^ 32 }
    ensures fine { IfOk result (λ target. reach_cause low high at (stands_for labels.now label.now) ≡ None) }
    ensures target { IfOk result (λ target. target ≡ unwrap_or (stands_for labels.now label.now) 0) }
    ensures refused { IfErr result (λ cause. reach_cause low high at (stands_for labels.now label.now) ≡ Some cause) }
{
    match labels.find(label) {
        None => Err(UNDEFINED),
        Some(target) => {
            if is_in_reach(low, high, at, target) {
                Ok(target)
            } else {
                Err(TOO_FAR)
            }
        }
    }
}

/// The instruction with its target.
fn settle_one(labels: &Labels<'_>, at: u32, draft: Draft<'_>) -> Result<Line, u8>
    ensures fine { IfOk result (λ line. target_cause labels.now at (drafted draft.entry) ≡ None) }
    ensures line { IfOk result (λ line. line ≡ settled labels.now (drafted draft.entry)) }
    ensures refused { IfErr result (λ cause. target_cause labels.now at (drafted draft.entry) ≡ Some cause) }
{
    match draft {
        Draft::Whole(line) => Ok(line),
        Draft::ToBranch {
            code,
            left,
            right,
            label,
        } => {
            let target = target_of(labels, 4096, 4094, at, label)?;
            Ok(Line::Branch {
                code,
                left,
                right,
                target,
            })
        }
        Draft::ToJump { to, label } => {
            let target = target_of(labels, 1048576, 1048574, at, label)?;
            Ok(Line::Jal { to, target })
        }
    }
}

/// The instructions with their targets.
#[tactic(auto, using(crate::proofs::SettleStepLemmas::settled_step, crate::proofs::SettleStepLemmas::refusal_step))]
pub(crate) fn settle(alloc: Global, body: &Body<'_>) -> Result<Vec<Line>, AsmError>
    requires places { length body.now.places.items ≡ length body.now.drafts.items }
    requires count { length body.now.drafts.items < 2 ^ 32 }
    ensures fine { IfOk result (λ lines.
        targets_refusal body.now.labels 0 (map drafted body.now.drafts.items) body.now.places.items ≡ None) }
    ensures lines { IfOk result (λ lines.
        lines.items ≡ map (settled body.now.labels) (map drafted body.now.drafts.items)) }
    ensures refused { IfErr result (λ e.
        IsRefusal e (targets_refusal body.now.labels 0 (map drafted body.now.drafts.items) body.now.places.items)) }
{
    let mut lines = Vec::new(alloc);
    for (at, draft) in body.drafts.iter().enumerate() {
        match settle_one(&body.labels, at as u32, *draft) {
            Ok(line) => lines.push(line)?,
            Err(cause) => return Err(AsmError::at(body.places[at], cause)),
        }
    }
    Ok(lines)
}
