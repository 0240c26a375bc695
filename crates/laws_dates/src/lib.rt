// Theorems about dates: the calendar, the three forms of a date in a field value, and If-Range by a date. No code.
#![tactic(auto)]
