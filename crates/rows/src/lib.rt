// Document 01's "Lines to try on the bench", in specs/: one table, proved by one statement over it. There is no code here.
#![tactic(auto)]
