#![tactic(auto)]

// The tidy text written from the tables of an accepted text is the tidy text of its model: the theorem that joins the tidier's definitions to tidying's. No code.
