//! A part of the page, which tools/page writes from page/page.html.

/// The text of this part.
pub(crate) const TEXT: &str = r##"<!doctype html>
<html lang="en">
<head>
<meta charset="utf-8">
<meta name="viewport" content="width=device-width, initial-scale=1">
<title>uringwalk timeline</title>
<style>
"##;
