// The union's promise: no correct site confirms drill while a correct site confirms live. No code: specs/Agreement.antt has the statements.
#![tactic(auto)]
