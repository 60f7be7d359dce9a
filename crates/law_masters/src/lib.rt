// SPDX-License-Identifier: Apache-2.0
// Laws only: what two masters on one bus see, in bytes and numbers: asks, calls, and when the bus is freed; and by which numbers a
// master's own four functions refuse. The statements are in specs/, the proofs in proofs/.
#![tactic(auto)]
