// Theory: what CRC-32 is, as a register bit by bit and in the words of IEEE 802.3, and that both are the same. The code is that of crc.
#![tactic(auto)]
