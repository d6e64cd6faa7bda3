// The session of a technician with one machine. The C side of include/station.h calls one turn after the other; a turn takes one line, or at most 100,000 steps.
#![tactic(auto)]

mod compare; // the call for C that compares two stations
mod attached; // one turn of a session with gdb: the call for C
mod technician; // one turn of a session of a technician: the call for C
mod version; // the call for C that converts the image of a station of the version before
