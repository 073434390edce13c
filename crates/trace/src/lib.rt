// What a program makes that nothing interrupts: definitions and laws. No code.
#![tactic(auto)]
