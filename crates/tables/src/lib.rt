// What the four tables of a space hold, by its words, and what a write leaves of them: definitions and laws alone.
#![tactic(auto)]
