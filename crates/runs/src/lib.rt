// What a search does, as definitions (specs/), and what every list of calls on it may rely on (specs/Promise.antt). There is
// no code here: the calls that keep the promise are in the crate `search`.
#![tactic(auto)]
