// One item needs another (paper 02, request 7): a problem with needs, by cases of plain problems. All of it is mathematics, see proofs/.
#![tactic(auto)]
