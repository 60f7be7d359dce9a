// SPDX-License-Identifier: Apache-2.0
// A part of a list of events, from one place to another, over what one event does. Definitions and laws.
#![tactic(auto)]
