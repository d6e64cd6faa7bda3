// No code: bytes that the calls accept are a good world with a sound ring, and such a world laid down is bytes that they accept.
#![tactic(auto)]
