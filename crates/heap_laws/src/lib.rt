// What holds of a heap whatever is called: its lists, and that it stays sound. There is no function here.

#![tactic(auto)]
