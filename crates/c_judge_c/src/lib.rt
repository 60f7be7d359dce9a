// SPDX-License-Identifier: Apache-2.0
// The verdict on a capture for C: what `c_judge` says, by the same clauses.
#![tactic(auto)]

ghost use Rattle.c_judge.specs.Verdict.{JudgeForCSettled};

use c_judge::Judgement;

// The verdict for C, as its number and place. The file is only read.
#[unsafe(no_mangle)]
pub extern "C" fn fm3130_judge(file: &[u8]) -> Judgement
    ensures { JudgeForCSettled file.now result }
{
    c_judge::judge::fm3130_judge(file)
}
