// The three demands, of calls as `engine::fresh`, `engine::apply`, `engine::message`, `lists::list` and `why::why` promise them, with the laws that
// only they need: what a command leaves alone, every sequence, export and load. They stand in specs/.
#![tactic(auto)]
