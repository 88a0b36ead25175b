//! A part of the page, which tools/page writes from page/page.html.

/// The text of this part.
pub(crate) const TEXT: &str = r##"</script>
</body>
</html>
"##;
