// The three demands of the project, stated over the public definitions and proved from the layers' laws. No code.

#![tactic(auto)]
