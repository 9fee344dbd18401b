// Numbers in decimal and lines of text, as the program writes them: definitions with no code under them.
#![tactic(auto)]
