//! The rule on sharing, as the language states it: definitions alone, so that what a run is need not wait for the check.
#![tactic(auto)]
