// What document 01's three demands say of execution and of lists, in specs/, proved of the definitions of machine and runlist. There is no code here.
#![tactic(auto)]
