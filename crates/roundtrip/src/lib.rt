// The laws of SynthDef2 files stand in specs/.
#![tactic(auto)]
