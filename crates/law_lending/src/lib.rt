// SPDX-License-Identifier: Apache-2.0
// Laws only: what a proof by hand of a function that lends needs: a buffer that is lent again for a call, a record of the
// body that is lent for one, and two requirements of one function. They say nothing of any part.
#![tactic(auto)]
