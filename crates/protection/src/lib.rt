// What the engine promises to jobs beside each other. The statement is in specs/, its proof in proofs/; the contract of `Engine::new` names it.
#![tactic(auto)]
