// The choice in a group: its definition and its laws. It has no code: what chooses is `choice`, over an accepted group's flat lists.
#![tactic(auto)]
