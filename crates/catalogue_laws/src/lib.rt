#![tactic(auto)]

// What reading and writing a catalogue come to: laws alone.
